//! Items that leave no trace.

ghost use Rattle.std.specs.Prelude.{◌≡◌};
ghost use Rattle.vg_irparse.specs.Placed.{placed, placed_one};
ghost use Rattle.vg_irparse.specs.Answer.{Gives};
ghost use Rattle.vg_irparse.specs.ReadingType.{most_brackets};
ghost use Rattle.vg_irparse.specs.Words.{is_one_of, target_words};
ghost use Rattle.vg_irglobal.specs.ReadingSkipped;

use vg_irlex::{Lexeme, piece};
use vg_irparse::{Role, Stop, is_one_of, is_quoted};
use vg_irread::{sign_at, wanted};

/// A quoted text.
#[tactic(auto, using(crate::proofs::Steps::code_steps))]
fn quoted_at<'a>(text: &[u8], tokens: &'a [Lexeme]) -> Result<((), &'a [Lexeme]), Stop>
    ensures { Gives (λ x. (x.0, placed text.now x.1.now)) result (ReadingSkipped.quoted_at most_brackets (placed text.now tokens.now)) }
{
    let wrong = Stop::Leaves {
        left: tokens.len(),
        wanted: wanted(Role::Plain),
    };
    let Some((first, rest)) = tokens.split_first() else {
        return Err(wrong);
    };
    if !is_quoted(piece(text, *first)) {
        return Err(wrong);
    }
    Ok(((), rest))
}

/// `source_filename = ".."`
#[tactic(auto, unfolding(crate::specs::ReadingSkipped::source_filename_at))]
pub fn source_filename_at<'a>(text: &[u8], tokens: &'a [Lexeme]) -> Result<((), &'a [Lexeme]), Stop>
    ensures { Gives (λ x. (x.0, placed text.now x.1.now)) result (ReadingSkipped.source_filename_at most_brackets (placed text.now tokens.now)) }
{
    let (_, rest) = sign_at(b"source_filename", wanted(Role::Plain), text, tokens)?;
    let (_, rest) = sign_at(b"=", wanted(Role::Plain), text, rest)?;
    quoted_at(text, rest)
}

const TARGET_WORDS: [&[u8]; 2] = [b"datalayout", b"triple"];

fn is_target_word(text: &[u8]) -> bool
    ensures { result ≡ is_one_of target_words text.now }
{
    is_one_of(&TARGET_WORDS, text)
}

/// What the target tells.
#[tactic(auto, using(crate::proofs::Steps::code_steps))]
fn target_word_at<'a>(text: &[u8], tokens: &'a [Lexeme]) -> Result<(usize, &'a [Lexeme]), Stop>
    ensures { Gives (λ x. (x.0, placed text.now x.1.now)) result (ReadingSkipped.target_word_at most_brackets (placed text.now tokens.now)) }
{
    let wrong = Stop::Leaves {
        left: tokens.len(),
        wanted: wanted(Role::Plain),
    };
    let Some((first, rest)) = tokens.split_first() else {
        return Err(wrong);
    };
    if !is_target_word(piece(text, *first)) {
        return Err(wrong);
    }
    Ok((first.start, rest))
}

/// `target word = ".."`
#[tactic(auto, unfolding(crate::specs::ReadingSkipped::target_at))]
pub fn target_at<'a>(text: &[u8], tokens: &'a [Lexeme]) -> Result<((), &'a [Lexeme]), Stop>
    ensures { Gives (λ x. (x.0, placed text.now x.1.now)) result (ReadingSkipped.target_at most_brackets (placed text.now tokens.now)) }
{
    let (_, rest) = sign_at(b"target", wanted(Role::Plain), text, tokens)?;
    let (_, rest) = target_word_at(text, rest)?;
    let (_, rest) = sign_at(b"=", wanted(Role::Plain), text, rest)?;
    quoted_at(text, rest)
}
