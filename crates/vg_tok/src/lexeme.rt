ghost use Rattle.std.specs.Prelude.{◌≡◌, ◌≤◌, ◌==◌, not, false, length, ◌+◌, IfSome};
ghost use Rattle.std.specs.List.{prefix_len};
ghost use Rattle.vg_tok.specs.Lexing.{is_white, may_start, may_continue, is_string_char, begins_with};
ghost use Rattle.vg_tok.specs.Front.{close_from, string_at, sign_at, block_at, lexeme_at};

use crate::number::number_at;
use crate::sign::{Sign, sign_of};

/// What stands at the front of a text. The numbers of type `usize` count its characters.
#[derive(Clone, Copy, Debug)]
pub(crate) enum Lexeme {
    /// There is no more text.
    End,
    /// White space or a comment.
    Gap(usize),
    /// A name or a reserved word.
    Name(usize),
    /// A string with its quotes.
    Str(usize),
    Number(u128, usize),
    Sign(Sign, usize),
    /// A number of 2 to the power of 128 or more.
    Wide,
    /// A number which a character that may go on a name follows.
    RunOn(usize),
    /// A comment begins with `/*`, and does not end.
    Open,
    /// Nothing of this begins with this character.
    Bad,
}

fn is_white(c: char) -> bool
    ensures { result ≡ is_white c }
{
    c == ' ' || c == '\t' || c == '\r' || c == '\n'
}

fn may_start(c: char) -> bool
    ensures { result ≡ may_start c }
{
    c == '_' || unicode_ident::is_xid_start(c)
}

pub(crate) fn may_continue(c: char) -> bool
    ensures { result ≡ may_continue c }
{
    unicode_ident::is_xid_continue(c)
}

fn is_string_char(c: char) -> bool
    ensures { result ≡ is_string_char c }
{
    (' '..='~').contains(&c) && !(c == '"' || c == '\\' || c == ';' || c == ':')
}

fn begins_with(text: &[char], c: char) -> bool
    ensures { result ≡ begins_with (λ d. d == c) text.now }
{
    match text.first() {
        Some(first) => *first == c,
        None => false,
    }
}

fn name_len(text: &[char]) -> usize
    ensures len { result ≡ prefix_len may_continue text.now }
    ensures within { result ≤ length text.now }
{
    text.iter().take_while(|c| may_continue(**c)).count()
}

fn line_len(text: &[char]) -> usize
    ensures len { result ≡ prefix_len (λ d. not (d == 10)) text.now }
    ensures within { result ≤ length text.now }
{
    text.iter().take_while(|c| **c != '\n').count()
}

fn string_len(text: &[char]) -> usize
    ensures len { result ≡ prefix_len is_string_char text.now }
    ensures within { result ≤ length text.now }
{
    text.iter().take_while(|c| is_string_char(**c)).count()
}

/// How many characters end with the first `*/`.
#[tactic(auto, using(crate::proofs::Steps::close_steps))]
fn close_len(text: &[char]) -> Option<usize>
    ensures len { result ≡ close_from 0 false text.now }
    ensures within { IfSome result (λ n. n ≤ length text.now) }
{
    let mut star = false;
    for (i, c) in text.iter().enumerate() {
        if star && *c == '/' {
            return Some(i + 1);
        }
        star = *c == '*';
    }
    None
}

/// A comment behind its `/*`.
#[tactic(auto, unfolding(crate::specs::Front::block_at))]
fn block_at(text: &[char]) -> Lexeme
    ensures { result ≡ block_at text.now }
{
    match close_len(text) {
        Some(n) => Lexeme::Gap(n + 2),
        None => Lexeme::Open,
    }
}

/// A string behind its opening quote.
#[tactic(auto, unfolding(crate::specs::Front::string_at))]
fn string_at(text: &[char]) -> Lexeme
    ensures { result ≡ string_at text.now }
{
    let len = string_len(text);
    if len > 0 && begins_with(&text[len..], '"') {
        Lexeme::Str(len + 2)
    } else {
        Lexeme::Bad
    }
}

#[tactic(auto, unfolding(crate::specs::Front::sign_at))]
fn sign_at(text: &[char]) -> Lexeme
    ensures { result ≡ sign_at text.now }
{
    let two = &text[..text.len().min(2)];
    if let Some(sign) = sign_of(two) {
        return Lexeme::Sign(sign, two.len());
    }
    let one = &text[..text.len().min(1)];
    match sign_of(one) {
        Some(sign) => Lexeme::Sign(sign, one.len()),
        None => Lexeme::Bad,
    }
}

#[tactic(auto, unfolding(crate::specs::Front::lexeme_at))]
pub(crate) fn lexeme_at(text: &[char]) -> Lexeme
    ensures { result ≡ lexeme_at text.now }
{
    let Some((first, rest)) = text.split_first() else {
        return Lexeme::End;
    };
    if is_white(*first) {
        return Lexeme::Gap(1);
    }
    if *first == '/' && begins_with(rest, '/') {
        return Lexeme::Gap(line_len(&rest[1..]) + 2);
    }
    if *first == '/' && begins_with(rest, '*') {
        return block_at(&rest[1..]);
    }
    if may_start(*first) {
        return Lexeme::Name(name_len(rest) + 1);
    }
    if first.is_digit(10) {
        return number_at(text);
    }
    if *first == '"' {
        return string_at(rest);
    }
    sign_at(text)
}
