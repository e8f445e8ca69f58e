ghost use Rattle.std.specs.Prelude.{◌≡◌};
ghost use Rattle.vg_inline.specs.Kept.{counts as counts_of};

/// What is kept of trees: those that have more nodes than `most` are dropped.
#[derive(Clone, Copy, Debug, PartialEq, Eq)]
pub struct Keep {
    /// The greatest number of nodes of what is kept.
    pub most: u16,
    /// Whether the trees themselves are kept, or only how many nodes they have and which parameters.
    pub trees: bool,
}

/// Only the numbers of nodes are kept, up to the greatest that a behaviour may have.
pub fn counts() -> Keep
    ensures { result ≡ counts_of }
{
    Keep {
        most: 4096,
        trees: false,
    }
}
