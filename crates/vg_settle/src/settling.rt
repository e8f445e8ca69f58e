ghost use Rattle.std.specs.Prelude.{[], ◌<◌, ◌^◌, length, IfOk};
ghost use Rattle.vg_settle.specs.Layout.{start};
ghost use Rattle.vg_settle.specs.Settled.{IsCode, IsSettled};
ghost use Rattle.vg_settle.specs.Sweep.{AreStarts};

use crate::item::Item;
use crate::sweep::sweep;
use std::alloc::{AllocError, Global};

/// Which items are short: all are long at first, and are made short while one fits. `bytes` is how many bytes a word
/// has. The answer has one mark for each item, in their order.
pub fn settle(alloc: Global, items: &[Item], bytes: u64) -> Result<Vec<bool>, AllocError>
    requires { IsCode items.now bytes }
    ensures { IfOk result (λ marks. IsSettled items.now bytes marks.items) }
{
    let mut marks = vec![in alloc; false; items.len()]?;
    let mut starts = long_starts(alloc, items)?;
    while sweep(items, bytes, &mut marks, &mut starts) {}
    Ok(marks)
}

/// The start of each item where none is short, and the end.
fn long_starts(alloc: Global, items: &[Item]) -> Result<Vec<u32>, AllocError>
    requires { start items.now [] (length items.now) < 2 ^ 32 }
    ensures { IfOk result (λ starts. AreStarts items.now [] starts.items) }
{
    let mut starts = Vec::new(alloc);
    let mut from = 0;
    for item in items {
        starts.push(from)?;
        from += item.words;
    }
    starts.push(from)?;
    Ok(starts)
}
