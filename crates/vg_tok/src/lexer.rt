ghost use Rattle.std.specs.Prelude.{◌≡◌, ◌⊎◌, ◌+◌, ◌^◌, ◌<◌, ◌≤◌, ℕ, List, [], IfOk, IfErr, IsErrAnd, length, take, drop, ◌-◌, Some, None, MatchResult};
ghost use Rattle.vg_tok.specs.declared.token.Token.{Token};
ghost use Rattle.vg_tok.specs.declared.fault.TokFault.{TokFault};
ghost use Rattle.vg_tok.specs.Lexing.{Lexes, IsFault, IsFaultAhead, byte_len, has_close};
ghost use Rattle.vg_tok.specs.Order.{AreInOrder};
ghost use Rattle.vg_tok.specs.Reading.{Begins, Means, name_kind, IsFaultOr, IsReadTo, HaveTokens, HaveFault};

use crate::decode::{byte_len, decoded};
use crate::fault::TokFault;
use crate::lexeme::{Lexeme, lexeme_at};
use crate::token::{Chars, Kind, Token};
use crate::word::word_of;
use sqlite_items::Items;
use std::alloc::{AllocError, Global};

/// A name or a reserved word.
fn name_kind(alloc: Global, text: &[char]) -> Result<Kind, AllocError>
    ensures { IfOk result (λ kind. kind ≡ name_kind text.now) }
{
    if let Some(word) = word_of(text) {
        return Ok(Kind::Word(word));
    }
    let name = Chars::from_slice(alloc, text)?;
    Ok(Kind::Name(name))
}

/// The characters of a string of `len` characters at the front of a text, without its quotes.
fn between_quotes(text: &[char], len: usize) -> &[char]
    requires quotes { 2 ≤ len }
    requires within { len ≤ length text.now }
    ensures { result.now ≡ take (len - 2) (drop 1 text.now) }
{
    let (body, _) = text[1..].split_at(len - 2);
    body
}

/// Whether a `*/` stands in the bytes.
#[tactic(auto, using(crate::proofs::Steps::has_close_steps))]
fn has_close(bytes: &[u8]) -> bool
    ensures { result ≡ has_close bytes.now }
{
    for i in 0..bytes.len().saturating_sub(1) {
        if bytes[i] == b'*' && bytes[i + 1] == b'/' {
            return true;
        }
    }
    false
}

/// The kind of the element at the front of a text, if it is a token, and its number of characters.
fn element_at(
    alloc: Global,
    text: &[char],
    behind: &[u8],
    at: usize,
) -> Result<(Option<Kind>, usize), TokFault>
    requires some { 0 < length text.now }
    requires fits { at + byte_len text.now < 2 ^ 64 }
    ensures element { IfOk result (λ found. Begins text.now found.0 found.1) }
    ensures fault { IfErr result (λ fault. IsFaultOr fault (IsFaultAhead at text.now behind.now fault)) }
{
    match lexeme_at(text) {
        Lexeme::End => unreachable!(),
        Lexeme::Gap(len) => Ok((None, len)),
        Lexeme::Name(len) => {
            let kind = name_kind(alloc, &text[..len])?;
            Ok((Some(kind), len))
        }
        Lexeme::Str(len) => {
            let body = Chars::from_slice(alloc, between_quotes(text, len))?;
            Ok((Some(Kind::Str(body)), len))
        }
        Lexeme::Number(value, len) => Ok((Some(Kind::Number(value)), len)),
        Lexeme::Sign(sign, len) => Ok((Some(Kind::Sign(sign)), len)),
        Lexeme::Wide => Err(TokFault::Wide { at }),
        Lexeme::RunOn(len) => Err(TokFault::BadChar {
            at: at + byte_len(&text[..len]),
        }),
        Lexeme::Open => {
            if has_close(behind) {
                return Err(TokFault::NotUtf8 {
                    at: at + byte_len(text),
                });
            }
            Err(TokFault::BadChar { at })
        }
        Lexeme::Bad => Err(TokFault::BadChar { at }),
    }
}

/// The tokens of these characters, where these bytes behind them begin with no character.
fn tokens_of(alloc: Global, characters: &[char], behind: &[u8]) -> Result<Items<Token>, TokFault>
    requires { byte_len characters.now < 2 ^ 64 }
    ensures tokens { IfOk result (λ tokens. HaveTokens characters.now behind.now tokens) }
    ensures fault { IfErr result (λ fault. IsFaultOr fault (HaveFault characters.now behind.now fault)) }
{
    let mut tokens = Items::new(alloc);
    let mut rest = characters;
    let mut at = 0;
    while !rest.is_empty() {
        let (kind, len) = element_at(alloc, rest, behind, at)?;
        let (text, after) = rest.split_at(len);
        let end = at + byte_len(text);
        match kind {
            Some(kind) => tokens.push(Token {
                kind,
                start: at,
                end,
            })?,
            None => {}
        }
        rest = after;
        at = end;
    }
    if !behind.is_empty() {
        return Err(TokFault::NotUtf8 { at });
    }
    Ok(tokens)
}

fn lexed(alloc: Global, text: &[u8]) -> Result<Items<Token>, TokFault>
    ensures tokens { IfOk result (λ tokens. Lexes text.now tokens) }
    ensures fault { IfErr result (λ fault. IsFaultOr fault (IsFault text.now fault)) }
{
    let (characters, behind) = decoded(alloc, text)?;
    tokens_of(alloc, characters.as_slice(), behind)
}

/// The tokens of a text of bytes, in order, or its first fault.
pub fn tokens(alloc: Global, text: &[u8]) -> Result<Items<Token>, TokFault>
    // What is answered is so.
    ensures tokens { IfOk result (λ tokens. Lexes text.now tokens) }
    ensures fault { IfErr result (λ fault. (fault ≡ TokFault.OutOfMemory) ⊎ IsFault text.now fault) }
    ensures in_order { IfOk result (λ tokens. AreInOrder 0 tokens (length text.now)) }

    // Where a text has tokens or a fault, it is answered, unless memory runs out.
    ensures accepts { (ts : List Token) → Lexes text.now ts
        → MatchResult result (λ tokens. tokens ≡ ts) (λ fault. fault ≡ TokFault.OutOfMemory) }
    ensures refuses { (f : TokFault) → IsFault text.now f
        → IsErrAnd result (λ fault. (fault ≡ TokFault.OutOfMemory) ⊎ (fault ≡ f)) }
{
    lexed(alloc, text)
}
