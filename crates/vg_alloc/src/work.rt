use crate::arrival::Arrival;

/// What is given to a scan.
#[derive(Clone, Copy)]
pub struct Work<'a> {
    pub intervals: &'a [(usize, usize)],
    /// The values, in the order in which their intervals begin.
    pub arrivals: &'a [Arrival],
    pub saved: u32,
}
