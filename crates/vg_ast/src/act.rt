use crate::Name;

/// What a stage does. `at` is the place of its first token.
#[derive(Drop)]
pub enum Act {
    Read { at: usize, resource: Name },
    Write { at: usize, resource: Name },
    Compute { at: usize },
    Resolve { at: usize },
}
