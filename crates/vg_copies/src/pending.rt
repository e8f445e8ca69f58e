use vg_goal::Place;

/// A move to another place, and whether it is done.
#[derive(Clone, Copy)]
pub struct Pending {
    pub source: Place,
    pub destination: Place,
    pub is_done: bool,
}
