/// How many instructions, formats and resources stand in front of an item.
#[derive(Clone, Copy, Debug)]
pub struct Counts {
    pub instructions: usize,
    pub formats: usize,
    pub resources: usize,
}
