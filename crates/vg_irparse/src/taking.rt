//! Taking one lexeme from the front of others.

ghost use Rattle.std.specs.Prelude.{◌≡◌, length};
ghost use Rattle.vg_irparse.specs.Placed.{placed};
ghost use Rattle.vg_irparse.specs.Answer.{Gives};
ghost use Rattle.vg_irparse.specs.Taking.{fixed_at, separator_at};

use crate::role::Wanted;
use crate::stop::Stop;
use vg_irlex::{Lexeme, piece};

/// These bytes, where they stand, and the lexemes behind them.
#[tactic(auto, using(crate::proofs::Placed::placed_steps))]
pub fn fixed_at<'a>(
    word: &[u8],
    wanted: Wanted,
    text: &[u8],
    tokens: &'a [Lexeme],
) -> Result<(usize, &'a [Lexeme]), Stop>
    ensures { Gives (λ x. (x.0, placed text.now x.1.now)) result (fixed_at word.now wanted (placed text.now tokens.now)) }
{
    let wrong = Stop::Leaves {
        left: tokens.len(),
        wanted,
    };
    let Some((first, rest)) = tokens.split_first() else {
        return Err(wrong);
    };
    if piece(text, *first) == word {
        return Ok((first.start, rest));
    }
    Err(wrong)
}

/// A comma, or the sign that ends a list: whether the list has ended, and the lexemes behind.
#[tactic(auto, using(crate::proofs::Placed::placed_steps))]
pub fn separator_at<'a>(
    closing: &[u8],
    wanted: Wanted,
    text: &[u8],
    tokens: &'a [Lexeme],
) -> Result<(bool, &'a [Lexeme]), Stop>
    ensures { Gives (λ x. (x.0, placed text.now x.1.now)) result (separator_at closing.now wanted (placed text.now tokens.now)) }
{
    let wrong = Stop::Leaves {
        left: tokens.len(),
        wanted,
    };
    let Some((first, rest)) = tokens.split_first() else {
        return Err(wrong);
    };
    let bytes = piece(text, *first);
    if bytes == closing {
        return Ok((true, rest));
    }
    if bytes == b",".as_slice() {
        return Ok((false, rest));
    }
    Err(wrong)
}
