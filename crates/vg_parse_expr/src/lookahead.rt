//! Looking ahead behind `NAME <`: a memory access, or a comparison.

ghost use Rattle.std.specs.Prelude.{◌≡◌, ◌<◌, ◌+◌, ◌^◌, ℕ, Bool};
ghost use Rattle.vg_ast.specs.Placed.{placed};
ghost use Rattle.vg_parse_expr.specs.Lookahead.{sign_passing, word_passing, passing, search_step, goes_on, IsWithin, is_access};

use crate::lexeme::begins_with;
use vg_tok::{Kind, Sign, Token, Word};

/// What a token does to the search for the `>` that closes the size of an access.
#[derive(Clone, Copy, Debug, PartialEq, Eq)]
pub enum Passing {
    /// It may stand in a sum.
    Passes,
    Opens,
    Closes,
    Less,
    Greater,
    /// No sum goes on with it.
    Stops,
}

fn sign_passing(sign: Sign) -> Passing
    ensures { result ≡ sign_passing sign }
{
    match sign {
        Sign::OpenParenthesis | Sign::OpenBracket => Passing::Opens,
        Sign::CloseParenthesis | Sign::CloseBracket => Passing::Closes,
        Sign::Less => Passing::Less,
        Sign::Greater => Passing::Greater,
        Sign::Plus
        | Sign::Minus
        | Sign::Star
        | Sign::StarHash
        | Sign::Slash
        | Sign::Percent
        | Sign::Tilde
        | Sign::Bang => Passing::Passes,
        _ => Passing::Stops,
    }
}

fn word_passing(word: Word) -> Passing
    ensures { result ≡ word_passing word }
{
    match word {
        Word::As | Word::Join | Word::Bits | Word::UInt | Word::SInt | Word::Bool => {
            Passing::Passes
        }
        _ => Passing::Stops,
    }
}

fn kind_passing(kind: &Kind) -> Passing
    ensures { result ≡ passing kind.now }
{
    match kind {
        Kind::Name(_) | Kind::Number(_) => Passing::Passes,
        Kind::Str(_) => Passing::Stops,
        Kind::Sign(sign) => sign_passing(*sign),
        Kind::Word(word) => word_passing(*word),
    }
}

/// Where the search stands behind a token: it goes on with so many open brackets, and outside of them so many `<`, or
/// it has ended.
#[derive(Clone, Copy, Debug, PartialEq, Eq)]
pub enum Search {
    Goes { nested: usize, angles: usize },
    Ends(bool),
}

/// One token in brackets, which are passed over.
fn step_in_brackets(passing: Passing, nested: usize, angles: usize) -> Search
    requires some { 0 < nested }
    requires room { nested + 1 < 2 ^ 64 }
    ensures step { (go : ℕ → ℕ → Bool) (call : Bool) → search_step go call passing nested angles ≡ goes_on go result }
    ensures most { IsWithin (nested + angles + 1) result }
{
    match passing {
        Passing::Opens => Search::Goes {
            nested: nested + 1,
            angles,
        },
        Passing::Closes => Search::Goes {
            nested: nested - 1,
            angles,
        },
        _ => Search::Goes { nested, angles },
    }
}

/// One token outside of brackets. `call` says whether a `(` stands behind it.
fn step_outside(call: bool, passing: Passing, angles: usize) -> Search
    requires { angles + 1 < 2 ^ 64 }
    ensures step { (go : ℕ → ℕ → Bool) → search_step go call passing 0 angles ≡ goes_on go result }
    ensures most { IsWithin (angles + 1) result }
{
    match passing {
        Passing::Passes => Search::Goes { nested: 0, angles },
        Passing::Opens => Search::Goes { nested: 1, angles },
        Passing::Less => Search::Goes {
            nested: 0,
            angles: angles + 1,
        },
        Passing::Greater => {
            if angles == 0 {
                Search::Ends(call)
            } else {
                Search::Goes {
                    nested: 0,
                    angles: angles - 1,
                }
            }
        }
        Passing::Closes | Passing::Stops => Search::Ends(false),
    }
}

/// One token, with so many open brackets and `<` before it.
fn search_step(call: bool, passing: Passing, nested: usize, angles: usize) -> Search
    requires { nested + angles + 1 < 2 ^ 64 }
    ensures step { (go : ℕ → ℕ → Bool) → search_step go call passing nested angles ≡ goes_on go result }
    ensures most { IsWithin (nested + angles + 1) result }
{
    if nested == 0 {
        step_outside(call, passing, angles)
    } else {
        step_in_brackets(passing, nested, angles)
    }
}

/// Whether what stands behind `NAME <` makes it an access to memory.
#[tactic(auto, unfolding(crate::specs::Lookahead::searches))]
pub(crate) fn is_access(tokens: &[Token]) -> bool
    ensures { result ≡ is_access (placed tokens.now) }
{
    let mut rest = tokens;
    let mut nested = 0;
    let mut angles = 0;
    while let Some((first, others)) = rest.split_first() {
        let call = begins_with(Sign::OpenParenthesis, others);
        match search_step(call, kind_passing(&first.kind), nested, angles) {
            Search::Goes {
                nested: brackets,
                angles: signs,
            } => {
                nested = brackets;
                angles = signs;
                rest = others;
            }
            Search::Ends(found) => return found,
        }
    }
    false
}
