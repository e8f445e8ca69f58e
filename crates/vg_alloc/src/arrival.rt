/// A value and its interval, in the order in which intervals begin.
#[derive(Clone, Copy)]
pub struct Arrival {
    pub first: usize,
    pub last: usize,
    pub value: u32,
}
