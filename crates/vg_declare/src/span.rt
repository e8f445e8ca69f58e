/// The highest and the lowest bit of a range.
#[derive(Clone, Copy, Debug)]
pub struct Span {
    pub high: u128,
    pub low: u128,
}
