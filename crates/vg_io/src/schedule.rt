ghost use Rattle.std.specs.Prelude.{◌≡◌, ◌↔◌, IsTrue};
ghost use Rattle.vg_io.specs.Schedule.{IsFailing, after_call};

use std::marker::Model;

/// Which calls fail, and how many were made.
#[derive(Debug, Drop)]
pub struct Schedule {
    failing: Vec<u64>,
    made: u128,
}

impl Model for Schedule {
    ghost use Rattle.vg_io.specs.Schedule.{Schedule as Plan};

    ghost Value = { Plan };

    ghost view = { λ s. record { failing = s.failing.items; made = s.made } };
}

impl Schedule {
    /// No call was made yet, and those with these numbers fail.
    pub fn new(failing: Vec<u64>) -> Schedule
        ensures { result ≡ record { failing = failing.items; made = 0 } }
    {
        Schedule { failing, made: 0 }
    }

    /// Makes a call, and tells whether it fails.
    pub fn next_fails(&mut self) -> bool
        ensures fails { IsTrue result ↔ IsFailing self.old }
        ensures counted { self.new ≡ after_call self.old }
    {
        let number = self.made;
        self.made = number.saturating_add(1);
        self.failing
            .iter()
            .any(|failing| u128::from(*failing) == number)
    }
}
