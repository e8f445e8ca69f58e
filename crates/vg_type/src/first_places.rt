/// The first places at which types and ranges are broken, as offsets in bytes into the text; None where they are nowhere.
#[derive(Clone, Copy, Debug, PartialEq, Eq)]
pub struct FirstPlaces {
    pub width: Option<usize>,
    pub range: Option<usize>,
}
