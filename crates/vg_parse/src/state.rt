use sqlite_items::Items;
use vg_ast::{Desc, Item, MicroItem, Role};
use vg_parse_item::Heading;

/// How far a description is read, with the trees of what is read. A part that is open has its heading and what stands in
/// its braces so far.
#[derive(Drop)]
pub enum State {
    /// Nothing is read.
    Start,
    /// In the braces of the instruction set part.
    InIsa {
        heading: Heading,
        items: Items<Item>,
    },
    /// Behind the `}` of a part: what is read is a description.
    Behind {
        desc: Desc,
    },
    /// In the braces of the application binary interface part.
    InAbi {
        desc: Desc,
        heading: Heading,
        roles: Items<Role>,
    },
    /// In the braces of the micro architecture part.
    InMicro {
        desc: Desc,
        heading: Heading,
        items: Items<MicroItem>,
    },
}
