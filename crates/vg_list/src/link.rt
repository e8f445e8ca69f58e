ghost use Rattle.std.specs.Prelude.{◌≡◌, ◌≢◌, ◌↔◌, IsTrue};

/// Where a link leads.
#[derive(Clone, Copy)]
pub enum Link {
    /// To the node of this number.
    Node(u32),
    /// To the sentinel of the list of this number, which stands before its first node and behind
    /// its last.
    Sentinel(u32),
    /// Nowhere: the node is in no list.
    Unlinked,
}

impl Link {
    ghost use Rattle.vg_list.specs.Link.{node_of};

    /// The node that the link leads to.
    #[inline]
    pub fn node(self) -> Option<u32>
        ensures { result ≡ node_of self }
    {
        match self {
            Link::Node(node) => Some(node),
            Link::Sentinel(_) | Link::Unlinked => None,
        }
    }

    /// Whether the link leads to a node or a sentinel.
    #[inline]
    pub fn leads(self) -> bool
        ensures { IsTrue result ↔ (self ≢ Link.Unlinked) }
    {
        match self {
            Link::Node(_) | Link::Sentinel(_) => true,
            Link::Unlinked => false,
        }
    }
}
