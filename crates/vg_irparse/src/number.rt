//! The values of digits.

ghost use Rattle.std.specs.Prelude.{◌≡◌, ◌<◌, ◌+◌, ◌*◌, ◌-◌, ◌^◌};
ghost use Rattle.std.specs.Option.{SomeIff};
ghost use Rattle.vg_irparse.specs.Text.{value_from, digits_value, kept};

/// A number with one more digit, where it is below 2 to the power of 64.
fn with_digit(value: u64, digit: u8) -> Option<u64>
    ensures { SomeIff result (value * 10 + digit < 2 ^ 64) (value * 10 + digit) }
{
    match value.checked_mul(10) {
        Some(product) => product.checked_add(u64::from(digit)),
        None => None,
    }
}

/// The value of digits, where it is below 2 to the power of 64.
#[tactic(auto, using(crate::proofs::Steps::value_steps))]
pub fn exact_value(digits: &[u8]) -> Option<u64>
    ensures { SomeIff result (value_from 0 digits.now < 2 ^ 64) (value_from 0 digits.now) }
{
    let mut value = 0;
    for byte in digits {
        match with_digit(value, byte.saturating_sub(48)) {
            Some(more) => value = more,
            None => return None,
        }
    }
    Some(value)
}

/// The value of digits, and 2^64 - 1 of those of a greater one.
pub fn kept_value(digits: &[u8]) -> u64
    ensures { result ≡ kept (digits_value digits.now) }
{
    match exact_value(digits) {
        Some(value) => value,
        None => u64::MAX,
    }
}
