ghost use Rattle.std.specs.Prelude.{◌≡◌, ◌-◌, ◌^◌, ◌<◌, IfOk};
ghost use Rattle.vg_goal.specs.Slots.{slots};

use crate::Place;
use std::alloc::{AllocError, Global};

/// The place of each value of a function, in the order of their numbers.
#[derive(Drop)]
pub struct Places {
    pub places: Vec<Place>,
}

impl Places {
    /// A slot of its own for each of so many values.
    pub fn slots(alloc: Global, values: u32) -> Result<Places, AllocError>
        requires { values < 2 ^ 32 - 2 }
        ensures { IfOk result (λ made. made.places.items ≡ slots values) }
    {
        let mut places = Vec::with_capacity(alloc, values as usize)?;
        for value in 0..values {
            places.push(Place::Slot(value + 2))?;
        }
        Ok(Places { places })
    }
}

#[cfg(test)]
mod tests;
