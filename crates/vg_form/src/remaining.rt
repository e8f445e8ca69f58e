use vg_ast::Item;

/// An item that is left where everything is put in place of its name.
#[derive(Clone, Copy)]
pub(crate) struct Remaining<'a> {
    pub item: &'a Item,
}
