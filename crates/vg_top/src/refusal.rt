//! The lines of refusals and the line of usage, each whole.
ghost use Rattle.std.specs.Prelude.{◌≡◌, ◌++◌, ◌<◌, ◌^◌, IfOk, OnOk, length};
ghost use Rattle.vg_top.specs.Reason as Reasons;
ghost use Rattle.vg_top.specs.Refusal as Lines;

use crate::position::position;
use crate::reason::Reason;
use std::alloc::{AllocError, Global};
use vg_rule::Rule;
use vg_text::number::push_decimal;
use vg_text::piece::push_bytes;

/// The file of this name has more bytes than its limit.
pub(crate) fn too_long(alloc: Global, name: &str) -> Result<Vec<u8>, AllocError>
    ensures { IfOk result (λ line. line.items ≡ Lines.too_long name.now) }
{
    let mut line = Vec::new(alloc);
    push_bytes(&mut line, b"refused: too long ")?;
    push_bytes(&mut line, name.as_bytes())?;
    push_bytes(&mut line, b"\n")?;
    Ok(line)
}

/// Appends a line and a column, both from 1.
fn push_place(text: &mut Vec<u8>, at: (u64, u64)) -> Result<(), AllocError>
    ensures { OnOk result (text.new.items ≡ text.old.items ++ Lines.place at) }
{
    push_decimal(text, at.0)?;
    push_bytes(text, b":")?;
    push_decimal(text, at.1)
}

/// A rule of descriptions is broken at this line and column.
fn rule_broken(alloc: Global, rule: Rule, at: (u64, u64)) -> Result<Vec<u8>, AllocError>
    ensures { IfOk result (λ text. text.items ≡ Lines.rule_broken rule at) }
{
    let mut text = Vec::new(alloc);
    push_bytes(&mut text, b"refused: description ")?;
    push_decimal(&mut text, rule.number())?;
    push_bytes(&mut text, b" ")?;
    push_bytes(&mut text, rule.name())?;
    push_bytes(&mut text, b" at ")?;
    push_place(&mut text, at)?;
    push_bytes(&mut text, b"\n")?;
    Ok(text)
}

/// A construct at this line and column isn't built yet.
pub(crate) fn not_built(alloc: Global, at: (u64, u64)) -> Result<Vec<u8>, AllocError>
    ensures { IfOk result (λ text. text.items ≡ Lines.not_built at) }
{
    let mut text = Vec::new(alloc);
    push_bytes(&mut text, b"refused: not built at ")?;
    push_place(&mut text, at)?;
    push_bytes(&mut text, b"\n")?;
    Ok(text)
}

/// Why a description is refused.
pub(crate) fn reason_line(
    alloc: Global,
    text: &[u8],
    reason: &Reason,
) -> Result<Vec<u8>, AllocError>
    requires { length text.now < 2 ^ 32 }
    ensures { IfOk result (λ line. line.items ≡ Reasons.reason_line text.now reason.now) }
{
    match reason {
        Reason::Broken { rule, at } => rule_broken(alloc, *rule, position(text, *at)),
        Reason::NotBuilt { at } => not_built(alloc, position(text, *at)),
    }
}

/// An image's text leaves the spellings at this line, from 1.
pub(crate) fn image_line(alloc: Global, line: u64) -> Result<Vec<u8>, AllocError>
    ensures { IfOk result (λ text. text.items ≡ Lines.image_refused line) }
{
    let mut text = Vec::new(alloc);
    push_bytes(&mut text, b"refused: image line ")?;
    push_decimal(&mut text, line)?;
    push_bytes(&mut text, b"\n")?;
    Ok(text)
}

/// The words are in none of the commands' forms.
#[tactic(auto, unfolding(crate::specs::Refusal::usage_line))]
pub(crate) fn usage_line(alloc: Global) -> Result<Vec<u8>, AllocError>
    ensures { IfOk result (λ line. line.items ≡ Lines.usage_line) }
{
    let mut line = Vec::new(alloc);
    push_bytes(
        &mut line,
        b"usage: vadlgen check|asm|dis|compile|exec|run|pipe|pipeir|debug|gen ..\n",
    )?;
    Ok(line)
}
