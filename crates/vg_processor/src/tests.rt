use super::*;
use crate::read_place::ReadPlace;
use crate::reads::nearer;
use sqlite_items::{Boxed, Items};
use std::alloc::Global;
use std::test::Fail;
use vg_ast::{Expr, Item, Name, TypeExpr};

fn name(alloc: Global, at: usize, text: &str) -> Result<Name, Fail> {
    let mut characters = Items::new(alloc);
    for c in text.chars() {
        characters.push(c)?;
    }
    Ok(Name {
        at,
        text: characters,
    })
}

fn memory(alloc: Global, text: &str) -> Result<Item, Fail> {
    let address: TypeExpr<Boxed<Expr>> = TypeExpr::Alias(name(alloc, 3, "A")?);
    let cell: TypeExpr<Boxed<Expr>> = TypeExpr::Alias(name(alloc, 4, "B")?);
    Ok(Item::Memory {
        at: 0,
        name: name(alloc, 1, text)?,
        address,
        cell,
    })
}

#[test]
fn the_first_memory_is_named_in_utf8(rt: HostRuntime) -> Result<(), Fail> {
    let alloc = rt.alloc();
    let items = [memory(alloc, "größe")?, memory(alloc, "M")?];
    let found = memory_name(alloc, &items)?;
    assert_eq!(rt; found.as_slice(), "größe".as_bytes());
    let none = memory_name(alloc, &[])?;
    assert!(rt; none.is_empty());
    Ok(())
}

#[test]
fn the_read_that_stands_first_counts(rt: HostRuntime) {
    let early = ReadPlace {
        at: 3,
        address_at: 9,
    };
    let late = ReadPlace {
        at: 5,
        address_at: 6,
    };
    assert_eq!(rt; nearer(Some(late), Some(early)), Some(early));
    assert_eq!(rt; nearer(Some(early), Some(late)), Some(early));
    assert_eq!(rt; nearer(None, Some(late)), Some(late));
}
