/// For each value of a function, in the order of their numbers, the first and the last place in the code that its
/// interval holds.
#[derive(Drop)]
pub struct Intervals {
    pub pairs: Vec<(usize, usize)>,
}
