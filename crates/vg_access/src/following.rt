//! Whether a write may stand behind others.
ghost use Rattle.std.specs.Prelude.{◌≡◌};
ghost use Rattle.std.specs.List.{list_any};
ghost use Rattle.vg_tree.specs.Access.{differ as differ_by, may_not_follow as may_not_follow_by, same_item as same_item_by, same_part as same_part_by};
ghost use Rattle.vg_access.specs.Given.{write_in, writes_in};

use crate::write::Write;
use sqlite_items::Boxed;
use vg_isa::Expr;
use vg_tree::same_tree;

fn same_item(a: &Write, b: &Write) -> bool
    ensures { result ≡ same_item_by (write_in a.now) (write_in b.now) }
{
    a.item == b.item
}

fn same_part(a: &Option<Boxed<Expr>>, b: &Option<Boxed<Expr>>) -> bool
    ensures { result ≡ same_part_by a.now b.now }
{
    match (a, b) {
        (Some(a), Some(b)) => same_tree(a.get(), b.get()),
        (None, None) => true,
        _ => false,
    }
}

/// Whether two writes of one resource differ in their index, address or size.
fn differ(a: &Write, b: &Write) -> bool
    ensures { result ≡ differ_by (write_in a.now) (write_in b.now) }
{
    same_item(a, b) && !(same_part(&a.at, &b.at) && a.bytes == b.bytes)
}

fn is_written(write: &Write, path: &[Write]) -> bool
    ensures { result ≡ list_any (same_item_by (write_in write.now)) (writes_in path.now) }
{
    for other in path {
        if same_item(write, other) {
            return true;
        }
    }
    false
}

fn is_written_otherwise(write: &Write, others: &[Write]) -> bool
    ensures { result ≡ list_any (differ_by (write_in write.now)) (writes_in others.now) }
{
    for other in others {
        if differ(write, other) {
            return true;
        }
    }
    false
}

/// Whether a write may not stand behind those of its path and those of other paths.
pub(crate) fn may_not_follow(write: &Write, path: &[Write], others: &[Write]) -> bool
    ensures { result ≡ may_not_follow_by (writes_in path.now) (writes_in others.now) (write_in write.now) }
{
    is_written(write, path) || is_written_otherwise(write, others)
}
