ghost use Rattle.std.specs.Prelude.{◌≡◌, ◌++◌, ◌<◌, OnOk, IfOk, decimal};
ghost use Rattle.vg_gen.specs.Drawing.{number_after};
ghost use Rattle.vg_gen.specs.ModuleText;

use crate::draws::Draws;
use std::alloc::{AllocError, Global};
use vg_text::number::push_decimal;
use vg_text::piece::push_bytes;

/// The text of the module of a number, in textual form of the LLVM Language Reference. Each line ends with a line feed.
pub fn module(alloc: Global, number: u64) -> Result<Vec<u8>, AllocError>
    ensures { IfOk result (λ text. text.items ≡ ModuleText.module_text number) }
{
    let mut out = Vec::new(alloc);
    let mut draws = Draws { x: number };
    for function in 0..100 {
        push_function(&mut out, &mut draws, function)?;
    }
    push_main(&mut out)?;
    Ok(out)
}

/// Writes function K at the end.
fn push_function(out: &mut Vec<u8>, draws: &mut Draws, k: u64) -> Result<(), AllocError>
    ensures text { OnOk result (out.new.items ≡ out.old.items ++ ModuleText.function draws.old.x k) }
    ensures draws { OnOk result (draws.new.x ≡ number_after draws.old.x 120) }
{
    push_numbered(out, b"define i16 @f", k)?;
    push_bytes(out, b"(i16 %v0, i16 %v1) {\n")?;
    for i in 0..40 {
        push_instruction(out, draws, i + 2)?;
    }
    push_bytes(out, b"  ret i16 %v41\n}\n\n")
}

/// Writes the instruction that sets `%vJ` at the end, of the next three draws.
#[tactic(auto, unfolding(crate::specs::Drawing::number_after))]
fn push_instruction(out: &mut Vec<u8>, draws: &mut Draws, j: u64) -> Result<(), AllocError>
    requires { 0 < j }
    ensures text { OnOk result (out.new.items ≡ out.old.items ++ ModuleText.instruction draws.old.x j) }
    ensures draws { OnOk result (draws.new.x ≡ number_after draws.old.x 3) }
{
    let word = operation(draws.draw(5));
    push_numbered(out, b"  %v", j)?;
    push_bytes(out, b" = ")?;
    push_bytes(out, word)?;
    push_operands(out, draws, j)
}

/// The word of an operation.
fn operation(n: u64) -> &'static [u8]
    ensures { result.now ≡ ModuleText.operation n }
{
    match n {
        0 => b"add",
        1 => b"sub",
        2 => b"and",
        3 => b"or",
        _ => b"xor",
    }
}

/// Writes the operands of the instruction that sets `%vJ` at the end, of the next two draws.
#[tactic(auto, unfolding(crate::specs::Drawing::number_after))]
fn push_operands(out: &mut Vec<u8>, draws: &mut Draws, j: u64) -> Result<(), AllocError>
    requires { 0 < j }
    ensures text { OnOk result (out.new.items ≡ out.old.items ++ ModuleText.operands draws.old.x j) }
    ensures draws { OnOk result (draws.new.x ≡ number_after draws.old.x 2) }
{
    push_numbered(out, b" i16 %v", draws.draw(j))?;
    push_numbered(out, b", %v", draws.draw(j))?;
    push_bytes(out, b"\n")
}

/// Writes the function main at the end.
fn push_main(out: &mut Vec<u8>) -> Result<(), AllocError>
    ensures { OnOk result (out.new.items ≡ out.old.items ++ ModuleText.main_function) }
{
    push_bytes(out, b"define i16 @main(i16 %n) {\n")?;
    for k in 0..100 {
        push_call(out, k)?;
    }
    push_bytes(out, b"  ret i16 %r99\n}\n")
}

/// Writes the call of function K at the end.
fn push_call(out: &mut Vec<u8>, k: u64) -> Result<(), AllocError>
    ensures { OnOk result (out.new.items ≡ out.old.items ++ ModuleText.call k) }
{
    push_numbered(out, b"  %r", k)?;
    push_numbered(out, b" = call i16 @f", k)?;
    push_arguments(out, k)
}

/// Writes the arguments of that call at the end.
fn push_arguments(out: &mut Vec<u8>, k: u64) -> Result<(), AllocError>
    ensures { OnOk result (out.new.items ≡ out.old.items ++ ModuleText.arguments k) }
{
    push_passed(out, k)?;
    push_numbered(out, b", i16 ", k)?;
    push_bytes(out, b")\n")
}

/// Writes what main passes function K first at the end.
fn push_passed(out: &mut Vec<u8>, k: u64) -> Result<(), AllocError>
    ensures { OnOk result (out.new.items ≡ out.old.items ++ ModuleText.passed k) }
{
    if k == 0 {
        return push_bytes(out, b"(i16 %n");
    }
    push_numbered(out, b"(i16 %r", k - 1)
}

/// Writes a text and a number behind it at the end.
fn push_numbered(out: &mut Vec<u8>, text: &[u8], n: u64) -> Result<(), AllocError>
    ensures { OnOk result (out.new.items ≡ out.old.items ++ (text.now ++ decimal n)) }
{
    push_bytes(out, text)?;
    push_decimal(out, n)
}
