ghost use Rattle.std.specs.Prelude.{◌≡◌};
ghost use Rattle.vg_top.specs.Number as Definition;

use vg_text::number::decimal_of;

/// At most so many steps or cycles are asked for.
pub(crate) const MOST_STEPS: u64 = 1_000_000_000;

/// A word that is a decimal number up to `most`, with no zero in front of another digit.
pub(crate) fn number_up_to(most: u64, word: &str) -> Option<u64>
    ensures { result ≡ Definition.number_up_to most word.now }
{
    let n = decimal_of(word.as_bytes())?;
    if n <= most { Some(n) } else { None }
}
