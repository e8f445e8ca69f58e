ghost use Rattle.std.specs.Prelude.{◌≡◌, ◌≢◌, ◌<◌, ◌≤◌, length, IfOk, OnOk, AllPairs};
ghost use Rattle.vg_list.specs.NodeLists.{nodes_of};

use super::Lists;
use std::alloc::{AllocError, Global};
use std::process::Abort;
use std::test::Fail;

/// The nodes that a walk of the list sees.
fn walked(alloc: Global, lists: &Lists, list: u32) -> Result<Vec<u32>, AllocError>
    requires { list < length lists.now.lists }
    ensures in_order { IfOk result (λ seen. seen.items ≡ nodes_of lists.now list) }
    ensures once { IfOk result (λ seen. AllPairs (λ a b. a ≢ b) seen.items) }
{
    let mut seen = Vec::new(alloc);
    let mut current = lists.first(list);
    while let Some(node) = current {
        seen.push(node)?;
        current = lists.next(node);
    }
    Ok(seen)
}

#[derive(Clone, Copy)]
enum Call {
    PushBack(u32, u32),
    InsertBefore(u32, u32),
    Unlink(u32),
    Splice(u32, u32),
}

/// Makes the call on lists of six nodes and three lists.
fn make(rt: &impl Abort, lists: &mut Lists, call: Call)
    requires nodes { lists.old.nodes ≡ 6 }
    requires lists { length lists.old.lists ≡ 3 }
    ensures nodes { lists.new.nodes ≡ 6 }
    ensures lists { length lists.new.lists ≡ 3 }
{
    match call {
        Call::PushBack(list, node) => {
            assert!(rt; list < 3 && node < 6);
            assert!(rt; !lists.is_linked(node));
            lists.push_back(list, node);
        }
        Call::InsertBefore(at, node) => {
            assert!(rt; at < 6 && node < 6);
            assert!(rt; lists.is_linked(at));
            assert!(rt; !lists.is_linked(node));
            lists.insert_before(at, node);
        }
        Call::Unlink(node) => {
            assert!(rt; node < 6);
            assert!(rt; lists.is_linked(node));
            lists.unlink(node);
        }
        Call::Splice(from, to) => {
            assert!(rt; from < 3 && to < 3);
            assert!(rt; from != to);
            lists.splice(from, to);
        }
    }
}

/// Whether walks see these nodes in the three lists, and `is_linked` these alone among the six.
fn are(alloc: Global, lists: &Lists, expected: [&[u32]; 3]) -> Result<bool, AllocError>
    requires nodes { lists.now.nodes ≡ 6 }
    requires lists { length lists.now.lists ≡ 3 }
{
    for list in 0..3 {
        let seen = walked(alloc, lists, list)?;
        if seen.as_slice() != expected[list as usize] {
            return Ok(false);
        }
    }
    for node in 0..6 {
        if lists.is_linked(node) != expected.iter().any(|nodes| nodes.contains(&node)) {
            return Ok(false);
        }
    }
    Ok(true)
}

#[test]
fn calls_change_lists(rt: HostRuntime) -> Result<(), Fail> {
    let mut lists = Lists::new(rt.alloc(), 6, 3)?;
    assert!(rt; are(rt.alloc(), &lists, [&[], &[], &[]])?);
    let table: [(Call, [&[u32]; 3]); 12] = [
        (Call::PushBack(0, 4), [&[4], &[], &[]]),
        (Call::PushBack(0, 2), [&[4, 2], &[], &[]]),
        (Call::InsertBefore(4, 0), [&[0, 4, 2], &[], &[]]),
        (Call::InsertBefore(2, 5), [&[0, 4, 5, 2], &[], &[]]),
        (Call::Splice(1, 0), [&[0, 4, 5, 2], &[], &[]]),
        (Call::PushBack(2, 3), [&[0, 4, 5, 2], &[], &[3]]),
        (Call::Splice(0, 2), [&[], &[], &[3, 0, 4, 5, 2]]),
        (Call::Unlink(2), [&[], &[], &[3, 0, 4, 5]]),
        (Call::Unlink(3), [&[], &[], &[0, 4, 5]]),
        (Call::Unlink(4), [&[], &[], &[0, 5]]),
        (Call::Splice(2, 1), [&[], &[0, 5], &[]]),
        (Call::PushBack(1, 4), [&[], &[0, 5, 4], &[]]),
    ];
    for (call, expected) in table {
        make(&rt, &mut lists, call);
        assert!(rt; are(rt.alloc(), &lists, expected)?);
    }
    Ok(())
}

/// Grows from six nodes and three lists to twelve and nine. Where that fails once, the lists have
/// to be as they were.
fn grow(rt: &impl Abort, alloc: Global, lists: &mut Lists) -> Result<(), AllocError>
    requires nodes { lists.old.nodes ≡ 6 }
    requires lists { length lists.old.lists ≡ 3 }
    ensures nodes { OnOk result (lists.new.nodes ≡ 12) }
    ensures lists { OnOk result (length lists.new.lists ≡ 9) }
{
    if lists.grow(6, 6).is_ok() {
        return Ok(());
    }
    assert!(rt; are(alloc, lists, [&[3, 1], &[2], &[]])?);
    lists.grow(6, 6)
}

#[test]
fn growth_keeps_lists(rt: HostRuntime) -> Result<(), Fail> {
    let mut lists = Lists::new(rt.alloc(), 6, 3)?;
    make(&rt, &mut lists, Call::PushBack(0, 3));
    make(&rt, &mut lists, Call::PushBack(1, 2));
    make(&rt, &mut lists, Call::PushBack(0, 1));
    grow(&rt, rt.alloc(), &mut lists)?;
    assert_eq!(rt;
        walked(rt.alloc(), &lists, 0)?.as_slice(),
        [3, 1].as_slice()
    );
    assert_eq!(rt; walked(rt.alloc(), &lists, 1)?.as_slice(), [2].as_slice());
    assert!(rt; lists.first(8).is_none() && !lists.is_linked(11));
    Ok(())
}
