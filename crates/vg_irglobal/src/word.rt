//! Names and words outside of bodies.

ghost use Rattle.std.specs.Prelude.{◌≡◌, ◌∷◌, []};
ghost use Rattle.vg_irparse.specs.Placed.{placed, placed_one};
ghost use Rattle.vg_irparse.specs.Answer.{Gives};
ghost use Rattle.vg_irparse.specs.ReadingType.{most_brackets, wanted};
ghost use Rattle.vg_irparse.specs.declared.role.Role.TheVariants as roles;
ghost use Rattle.vg_irparse.specs.Rows.{texts};
ghost use Rattle.vg_irparse.specs.Words.{entry_of, is_one_of, linkage_words, address_words};
ghost use Rattle.vg_irparse.specs.GrammarModule.{kind_words};
ghost use Rattle.vg_irread.specs.Kinds.{words};
ghost use Rattle.vg_irread.specs.ReadingInstruction.{words_of};
ghost use Rattle.vg_irread.specs.ReadingOperand;
ghost use Rattle.vg_irglobal.specs.ReadingInitial.{next_in, only};
ghost use Rattle.vg_irglobal.specs.ReadingGlobal;

use std::alloc;
use vg_ir::{Linkage, NameAt};
use vg_irlex::{Lexeme, piece};
use vg_irparse::{Role, Stop, entry_of, is_global, is_one_of, name_of};
use vg_irread::{sign_at, spot, wanted};

/// Whether the next lexeme is this one.
pub(crate) fn next_is(word: &[u8], text: &[u8], tokens: &[Lexeme]) -> bool
    ensures { result ≡ next_in (only word.now) (placed text.now tokens.now) }
{
    match tokens.split_first() {
        Some((first, _)) => word == piece(text, *first),
        None => false,
    }
}

/// An `@` name.
#[tactic(auto, using(crate::proofs::Steps::code_steps))]
pub(crate) fn global_at<'a>(
    alloc: alloc::Global,
    text: &[u8],
    tokens: &'a [Lexeme],
) -> Result<(NameAt, &'a [Lexeme]), Stop>
    ensures { Gives (λ x. (x.0, placed text.now x.1.now)) result (ReadingOperand.global_at (wanted roles.Plain) most_brackets (placed text.now tokens.now)) }
{
    let wrong = Stop::Leaves {
        left: tokens.len(),
        wanted: wanted(Role::Plain),
    };
    let Some((first, rest)) = tokens.split_first() else {
        return Err(wrong);
    };
    let bytes = piece(text, *first);
    if !is_global(bytes) {
        return Err(wrong);
    }
    let name = name_of(alloc, bytes)?;
    let at = spot(first.start);
    Ok((NameAt { name, at }, rest))
}

const LINKAGES: [(&[u8], Linkage); 3] = [
    (b"private", Linkage::Private),
    (b"internal", Linkage::Internal),
    (b"common", Linkage::Common),
];

fn linkage_of(text: &[u8]) -> Option<Linkage>
    ensures { result ≡ entry_of linkage_words text.now }
{
    entry_of(&LINKAGES, text)
}

const LINKAGE_WORDS: [&[u8]; 3] = [b"private", b"internal", b"common"];

fn next_is_linkage(text: &[u8], tokens: &[Lexeme]) -> bool
    ensures { result ≡ next_in ReadingGlobal.linkage_kinds (placed text.now tokens.now) }
{
    match tokens.split_first() {
        Some((first, _)) => is_one_of(&LINKAGE_WORDS, piece(text, *first)),
        None => false,
    }
}

/// A word that says who may name it.
#[tactic(auto, using(crate::proofs::Steps::code_steps))]
fn linkage_word_at<'a>(text: &[u8], tokens: &'a [Lexeme]) -> Result<(Linkage, &'a [Lexeme]), Stop>
    ensures { Gives (λ x. (x.0, placed text.now x.1.now)) result (ReadingGlobal.linkage_word_at most_brackets (placed text.now tokens.now)) }
{
    let wrong = Stop::Leaves {
        left: tokens.len(),
        wanted: wanted(Role::Plain),
    };
    let Some((first, rest)) = tokens.split_first() else {
        return Err(wrong);
    };
    match linkage_of(piece(text, *first)) {
        Some(linkage) => Ok((linkage, rest)),
        None => Err(wrong),
    }
}

/// Who may name it, where there is a word for that.
pub(crate) fn linkage_at<'a>(
    text: &[u8],
    tokens: &'a [Lexeme],
) -> Result<(Option<Linkage>, &'a [Lexeme]), Stop>
    ensures { Gives (λ x. (x.0, placed text.now x.1.now)) result (ReadingGlobal.linkage_at most_brackets (placed text.now tokens.now)) }
{
    if !next_is_linkage(text, tokens) {
        return Ok((None, tokens));
    }
    let (linkage, rest) = linkage_word_at(text, tokens)?;
    Ok((Some(linkage), rest))
}

/// `dso_local`, which may lack.
pub(crate) fn dso_local_at<'a>(
    text: &[u8],
    tokens: &'a [Lexeme],
) -> Result<(Option<usize>, &'a [Lexeme]), Stop>
    ensures { Gives (λ x. (x.0, placed text.now x.1.now)) result (ReadingGlobal.dso_local_at most_brackets (placed text.now tokens.now)) }
{
    if !next_is(b"dso_local", text, tokens) {
        return Ok((None, tokens));
    }
    let (at, rest) = sign_at(b"dso_local", wanted(Role::Plain), text, tokens)?;
    Ok((Some(at), rest))
}

const ADDRESS_WORDS: [&[u8]; 2] = [b"unnamed_addr", b"local_unnamed_addr"];

fn is_address_word(text: &[u8]) -> bool
    ensures { result ≡ is_one_of address_words text.now }
{
    is_one_of(&ADDRESS_WORDS, text)
}

/// A word that says whether the address counts, which may lack.
pub(crate) fn address_at<'a>(
    text: &[u8],
    tokens: &'a [Lexeme],
) -> Result<(Option<usize>, &'a [Lexeme]), Stop>
    ensures { Gives (λ x. (x.0, placed text.now x.1.now)) result (ReadingGlobal.address_at most_brackets (placed text.now tokens.now)) }
{
    let Some((first, rest)) = tokens.split_first() else {
        return Ok((None, tokens));
    };
    if !is_address_word(piece(text, *first)) {
        return Ok((None, tokens));
    }
    Ok((Some(first.start), rest))
}

const KIND_WORDS: [&[u8]; 2] = [b"global", b"constant"];

fn is_kind_word(text: &[u8]) -> bool
    ensures { result ≡ is_one_of kind_words text.now }
{
    is_one_of(&KIND_WORDS, text)
}

/// `global` or `constant`: whether it is a constant.
#[tactic(auto, using(crate::proofs::Steps::code_steps))]
pub(crate) fn kind_at<'a>(text: &[u8], tokens: &'a [Lexeme]) -> Result<(bool, &'a [Lexeme]), Stop>
    ensures { Gives (λ x. (x.0, placed text.now x.1.now)) result (ReadingGlobal.kind_at most_brackets (placed text.now tokens.now)) }
{
    let wrong = Stop::Leaves {
        left: tokens.len(),
        wanted: wanted(Role::Plain),
    };
    let Some((first, rest)) = tokens.split_first() else {
        return Err(wrong);
    };
    let bytes = piece(text, *first);
    if !is_kind_word(bytes) {
        return Err(wrong);
    }
    Ok((b"constant".as_slice() == bytes, rest))
}
