/// A node whose uses are searched, and how many of them are done.
#[derive(Clone, Copy, Debug)]
pub struct Step {
    pub node: usize,
    pub passed: usize,
}
