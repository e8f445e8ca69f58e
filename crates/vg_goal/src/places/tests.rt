use super::Places;
use crate::Place;
use std::test::Fail;

#[test]
fn slots_begin_behind_the_two_that_are_kept(rt: HostRuntime) -> Result<(), Fail> {
    let made = Places::slots(rt.alloc(), 3)?;
    assert_eq!(rt;
        made.places.as_slice(),
        [Place::Slot(2), Place::Slot(3), Place::Slot(4)].as_slice()
    );
    assert!(rt; Places::slots(rt.alloc(), 0)?.places.is_empty());
    Ok(())
}
