//! Numbers as they are written.

ghost use Rattle.std.specs.Prelude.{◌≡◌, ◌<◌, ◌≤◌, ◌^◌};
ghost use Rattle.std.specs.Option.{SomeIff};
ghost use Rattle.vg_irparse.specs.Text.{written, number_of};
ghost use Rattle.vg_irparse.specs.Grammar.{is_number_of};

use vg_ir::Number;
use vg_irparse::{exact_value, is_number, kept_value};

/// A number as it is kept.
pub fn number_of(text: &[u8]) -> Number
    ensures { result ≡ number_of text.now }
{
    match text.split_first() {
        Some((first, rest)) => {
            if *first == b'-' {
                Number {
                    negative: true,
                    magnitude: kept_value(rest),
                }
            } else {
                Number {
                    negative: false,
                    magnitude: kept_value(text),
                }
            }
        }
        None => Number {
            negative: false,
            magnitude: 0,
        },
    }
}

/// A number, where its magnitude is below 2 to the power of 64.
fn exact_number(text: &[u8]) -> Option<Number>
    ensures { SomeIff result ((written text.now).magnitude < 2 ^ 64) (written text.now) }
{
    let Some((first, rest)) = text.split_first() else {
        return Some(Number {
            negative: false,
            magnitude: 0,
        });
    };
    if *first == b'-' {
        let magnitude = exact_value(rest)?;
        return Some(Number {
            negative: true,
            magnitude,
        });
    }
    let magnitude = exact_value(text)?;
    Some(Number {
        negative: false,
        magnitude,
    })
}

/// A number of an integer of so many bits.
#[tactic(auto, using(crate::proofs::Fitting::beyond))]
pub(crate) fn is_number_of(width: u8, text: &[u8]) -> bool
    requires wide { 0 < width }
    requires narrow { width ≤ 64 }
    ensures { result ≡ is_number_of width text.now }
{
    if !is_number(text) {
        return false;
    }
    match exact_number(text) {
        Some(number) => number.fits(width),
        None => false,
    }
}
