use vg_ir::Spot;

/// Where an element of a number is in a list, where lists stand one behind the other.
#[derive(Clone, Copy, Debug, PartialEq, Eq)]
pub enum Sought {
    /// Its place.
    Found(Spot),
    /// It is behind the list, where it has this number.
    Left(usize),
}
