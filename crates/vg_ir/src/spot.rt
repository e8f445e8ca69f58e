/// A place in the text of a module: the offset of a byte from 0.
#[derive(Clone, Copy, Debug, PartialEq, Eq)]
pub struct Spot {
    /// Which text of a program it is in: 0 where there is one text alone.
    pub unit: u32,
    pub at: usize,
}
