ghost use Rattle.std.specs.Prelude.{◌≡◌, ◌<◌};
ghost use Rattle.vg_gen.specs.Drawing.{next_number, drawn};

/// A sequence of numbers that look drawn by chance, at the number to which it has come.
#[derive(Drop)]
pub struct Draws {
    /// The number.
    pub x: u64,
}

impl Draws {
    /// Goes on to the next number, and answers its bits from 33 up modulo `m`.
    pub fn draw(&mut self, m: u64) -> u64
        requires { 0 < m }
        ensures number { self.new.x ≡ next_number self.old.x }
        ensures drawn { result ≡ drawn self.new.x m }
    {
        self.x = self
            .x
            .wrapping_mul(6364136223846793005)
            .wrapping_add(1442695040888963407);
        (self.x >> 33) % m
    }
}
