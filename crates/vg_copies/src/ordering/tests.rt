use super::order;
use std::test::Fail;
use vg_goal::Place;

#[test]
fn two_places_are_exchanged_over_the_spare(rt: HostRuntime) -> Result<(), Fail> {
    let a = Place::Saved(0);
    let b = Place::Slot(7);
    let spare = Place::Slot(1);
    let copies = order(rt.alloc(), &[(a, b), (b, a)], spare)?;
    assert_eq!(rt;
        copies.as_slice(),
        [(b, spare), (a, b), (spare, a)].as_slice()
    );
    Ok(())
}

#[test]
fn moves_that_share_a_source_need_no_spare(rt: HostRuntime) -> Result<(), Fail> {
    let [a, b, c, d] = [
        Place::Saved(0),
        Place::In(0),
        Place::Out(3),
        Place::Argument(2),
    ];
    let copies = order(rt.alloc(), &[(a, b), (d, d), (b, c)], Place::Slot(1))?;
    assert_eq!(rt; copies.as_slice(), [(b, c), (a, b)].as_slice());
    Ok(())
}
