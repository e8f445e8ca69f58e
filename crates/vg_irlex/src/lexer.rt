ghost use Rattle.std.specs.Prelude.{◌≡◌, ◌<◌, IfOk, length};
ghost use Rattle.vg_irlex.specs.Lexing.{Lexes, is_line_feed};
ghost use Rattle.vg_irlex.specs.Front.{Begins};

use crate::front::{Front, front_of};
use crate::lexeme::Lexeme;
use sqlite_items::Items;
use std::alloc::{AllocError, Global};

fn is_line_feed(text: &[u8]) -> bool
    ensures { result ≡ is_line_feed text.now }
{
    match text.first() {
        Some(first) => *first == b'\n',
        None => false,
    }
}

/// Whether what stands at the front of a text is a lexeme, and how many bytes it has.
fn element_at(text: &[u8]) -> (bool, usize)
    requires { 0 < length text.now }
    ensures { Begins text.now result.0 result.1 }
{
    let Some((first, rest)) = text.split_first() else {
        unreachable!()
    };
    match front_of(*first, rest) {
        Front::Gap(len) => (false, len),
        Front::Lexeme(len) => (true, len),
    }
}

/// The lexemes of a text, in order.
pub fn lexemes(alloc: Global, text: &[u8]) -> Result<Items<Lexeme>, AllocError>
    ensures { IfOk result (λ lexemes. Lexes text.now lexemes) }
{
    let mut lexemes = Items::new(alloc);
    let mut rest = text;
    let mut at = 0;
    let mut fresh = true;
    while !rest.is_empty() {
        let (is_lexeme, len) = element_at(rest);
        let (front, after) = rest.split_at(len);
        let start = at;
        at += len;
        if is_lexeme {
            lexemes.push(Lexeme {
                start,
                end: at,
                fresh,
            })?;
            fresh = false;
        } else {
            fresh = fresh || is_line_feed(front);
        }
        rest = after;
    }
    Ok(lexemes)
}
