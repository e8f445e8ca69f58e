/// Which line of an image may be next.
#[derive(Clone, Copy, Debug, PartialEq, Eq)]
pub(crate) enum Stage {
    /// The first line, with the description's name.
    Image,
    /// A line of the rest of a name that has line feeds.
    Name,
    Base,
    Entry,
    Stop,
    Full,
    /// A code word, or the address of the data.
    Code,
    /// Bytes of data, a symbol, or the end.
    Bytes,
    /// A symbol, or the end.
    Symbols,
    /// None.
    End,
}
