//! The numbers of registers.
ghost use Rattle.std.specs.Prelude.{◌≡◌, ◌≤◌, IfOk, IsTrue, map, nat_eq, false, replicate};
ghost use Rattle.std.specs.Option.{option_map_or};
ghost use Rattle.vg_isa.specs.declared.declaration.RegDecl.{RegDecl};
ghost use Rattle.vg_isa.specs.Declaration.{register_count};
ghost use Rattle.vg_isa.specs.Accepted.{is_register_decl};

use sqlite_items::Items;
use std::alloc::{AllocError, Global};
use vg_isa::{Isa, RegDecl};

/// Whether the register with this index reads as 0.
#[inline(always)]
pub fn is_zero(decl: &RegDecl, i: u8) -> bool
    ensures { result ≡ option_map_or (λ z. nat_eq z i) decl.now.zero false }
{
    match decl.zero {
        None => false,
        Some(zero) => zero == i,
    }
}

/// How many registers a declaration has.
fn count(decl: &RegDecl) -> usize
    requires { IsTrue (is_register_decl decl.now) }
    ensures { result ≡ register_count decl.now }
{
    match decl.index {
        None => 1,
        Some(width) => 1 << width.bits(),
    }
}

/// So many zeros.
fn zeros(alloc: Global, n: usize) -> Result<Items<u128>, AllocError>
    ensures { IfOk result (λ it. it ≡ replicate n 0) }
{
    Ok(Items::from_vec(vec![in alloc; 0; n]?))
}

/// For each declaration of a description as many zeros as it has registers.
pub fn zero_files(alloc: Global, isa: &Isa) -> Result<Vec<Items<u128>>, AllocError>
    ensures { IfOk result (λ files. files.items ≡ map (λ (decl : RegDecl). replicate (register_count decl) 0) isa.now.regs) }
{
    let mut files = Vec::new(alloc);
    for decl in isa.regs() {
        files.push(zeros(alloc, count(decl))?)?;
    }
    Ok(files)
}
