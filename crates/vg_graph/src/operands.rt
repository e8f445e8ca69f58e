ghost use Rattle.std.specs.Prelude.{◌≡◌, ◌<◌, length, slice_get, slice_set, Some};
ghost use Rattle.vg_graph.specs.Node.{numbers_of};

/// The numbers of a node's operands, in order. Contracts see them as a list.
#[derive(Clone, Copy, Debug, PartialEq, Eq)]
pub enum Operands {
    Zero,
    One(u32),
    Two(u32, u32),
    Three(u32, u32, u32),
}

impl Operands {
    /// How many there are.
    #[inline]
    pub fn count(self) -> u8
        ensures { result ≡ length (numbers_of self) }
    {
        match self {
            Operands::Zero => 0,
            Operands::One(..) => 1,
            Operands::Two(..) => 2,
            Operands::Three(..) => 3,
        }
    }

    /// The one at a place, counted from 0; None where there are no more.
    #[inline]
    pub fn get(self, place: u8) -> Option<u32>
        ensures { result ≡ slice_get (numbers_of self) place }
    {
        match (self, place) {
            (Operands::One(a), 0) | (Operands::Two(a, _), 0) | (Operands::Three(a, _, _), 0) => {
                Some(a)
            }
            (Operands::Two(_, b), 1) | (Operands::Three(_, b, _), 1) => Some(b),
            (Operands::Three(_, _, c), 2) => Some(c),
            _ => None,
        }
    }

    /// The same with another number at a place.
    #[inline]
    pub fn with(self, place: u8, number: u32) -> Operands
        requires { place < length (numbers_of self) }
        ensures { numbers_of result ≡ slice_set (numbers_of self) place number }
    {
        match (self, place) {
            (Operands::One(_), 0) => Operands::One(number),
            (Operands::Two(_, b), 0) => Operands::Two(number, b),
            (Operands::Two(a, _), 1) => Operands::Two(a, number),
            (Operands::Three(_, b, c), 0) => Operands::Three(number, b, c),
            (Operands::Three(a, _, c), 1) => Operands::Three(a, number, c),
            (Operands::Three(a, b, _), 2) => Operands::Three(a, b, number),
            _ => unreachable!(),
        }
    }
}
