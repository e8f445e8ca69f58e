ghost use Rattle.std.specs.Prelude.{◌≡◌, ◌⊎◌, ℕ, List, None, IfOk, IfErr, IsTrue};
ghost use Rattle.vg_tok.specs.Lexing.{Lexes};
ghost use Rattle.vg_ast.specs.declared.desc.Desc.{Desc as TheTree};
ghost use Rattle.vg_ast.specs.Description.{Reads};
ghost use Rattle.vg_iss.specs.Kept.{is_memory_free};
ghost use Rattle.vg_inline.specs.Rules.{IsFolded};
ghost use Rattle.vg_width.specs.Rules.{breach_in};
ghost use Rattle.vg_top.specs.Description.{HasTree, IsBuilt, IsUnlike, IsDescription, IsFaultOf};
ghost use Rattle.vg_top.specs.Reason.{lacking};
ghost use Rattle.vg_top.specs.Faulting.{IsBuildFault, IsFaultFor};

use crate::description_fault::DescriptionFault;
use crate::needs::Needs;
use crate::reason::Reason;
use sqlite_items::Items;
use std::alloc::Global;
use vg_ast::Desc;
use vg_const::fold;
use vg_form::{FormFault, isa_of};
use vg_inline::Plain;
use vg_isa::Isa;
use vg_parse::{ParseFault, parse};
use vg_rule::Rule;
use vg_tok::{Token, tokens};
use vg_width::check;

/// The tokens of a text.
#[tactic(auto, using(crate::proofs::Described::token_faulty))]
fn tokens_of(alloc: Global, text: &[u8]) -> Result<Items<Token>, DescriptionFault>
    ensures tokens { IfOk result (λ tokens. Lexes text.now tokens) }
    ensures fault { IfErr result (λ fault. IsFaultOf text.now fault) }
{
    Ok(tokens(alloc, text)?)
}

/// The tree of the tokens of a text.
fn tree_of_tokens(alloc: Global, tokens: &[Token]) -> Result<Desc, DescriptionFault>
    ensures tree { IfOk result (λ tree. Reads tokens.now tree) }
    ensures fault { IfErr result (λ fault. (bytes : List ℕ) → Lexes bytes tokens.now → IsFaultOf bytes fault) }
{
    match parse(alloc, tokens) {
        Ok(tree) => Ok(tree),
        Err(ParseFault::Syntax { at }) => Err(DescriptionFault::broken(Rule::Syntax, at)),
        Err(ParseFault::OutOfMemory) => Err(DescriptionFault::OutOfMemory),
    }
}

/// The tree of a text.
#[tactic(auto, using(crate::proofs::Described::has_tree))]
fn tree_of(alloc: Global, text: &[u8]) -> Result<Desc, DescriptionFault>
    ensures tree { IfOk result (λ tree. HasTree text.now tree) }
    ensures fault { IfErr result (λ fault. IsFaultOf text.now fault) }
{
    let tokens = tokens_of(alloc, text)?;
    tree_of_tokens(alloc, tokens.as_slice())
}

/// The folded description of a tree.
#[tactic(auto, using(crate::proofs::Described::rule_faulty))]
fn folded(alloc: Global, tree: Desc) -> Result<Plain, DescriptionFault>
    ensures plain { IfOk result (λ plain. IsFolded tree plain) }
    ensures fault { IfErr result (λ fault. (bytes : List ℕ) → HasTree bytes tree → IsFaultOf bytes fault) }
{
    Ok(fold(alloc, tree)?)
}

/// A folded description keeps the rules of types, formats, behaviours, the binary interface, stages and limits.
fn checked(alloc: Global, plain: &Plain) -> Result<(), DescriptionFault>
    requires folded { IsFolded plain.now.description plain.now }
    ensures kept { IfOk result (λ _. breach_in plain.now.description ≡ None) }
    ensures fault { IfErr result (λ fault. (bytes : List ℕ) (tree : TheTree) → HasTree bytes tree → IsFolded tree plain.now → IsFaultOf bytes fault) }
{
    Ok(check(alloc, plain)?)
}

/// The processor of a folded description, or the place of the first thing that isn't built yet.
fn isa_of_plain(alloc: Global, plain: &Plain) -> Result<Isa, FormFault>
    requires folded { IsFolded plain.now.description plain.now }
    ensures isa { IfOk result (λ isa. IsBuilt plain.now.description isa) }
    ensures memory_free { IfOk result (λ isa. IsTrue (is_memory_free isa)) }
    ensures fault { IfErr result (λ f. (f ≡ FormFault.OutOfMemory) ⊎ ((at : ℕ) × (f ≡ FormFault.Unlike at) × IsUnlike plain.now.description at)) }
{
    isa_of(alloc, plain)
}

/// The processor of a folded description.
fn built(alloc: Global, plain: &Plain) -> Result<Isa, DescriptionFault>
    requires folded { IsFolded plain.now.description plain.now }
    ensures isa { IfOk result (λ isa. IsBuilt plain.now.description isa) }
    ensures memory_free { IfOk result (λ isa. IsTrue (is_memory_free isa)) }
    ensures fault { IfErr result (λ fault. IsBuildFault plain.now.description fault) }
{
    match isa_of_plain(alloc, plain) {
        Ok(isa) => Ok(isa),
        Err(FormFault::Unlike { at }) => Err(DescriptionFault::Refused(Reason::NotBuilt { at })),
        Err(FormFault::OutOfMemory) => Err(DescriptionFault::OutOfMemory),
    }
}

/// The processor that a text describes, or why there is none.
#[tactic(auto, using(crate::proofs::Described::folded_itself, crate::proofs::Described::described, crate::proofs::Described::build_faulty))]
fn description_of(alloc: Global, text: &[u8]) -> Result<Isa, DescriptionFault>
    ensures isa { IfOk result (λ isa. IsDescription text.now isa) }
    ensures memory_free { IfOk result (λ isa. IsTrue (is_memory_free isa)) }
    ensures fault { IfErr result (λ fault. IsFaultOf text.now fault) }
{
    let tree = tree_of(alloc, text)?;
    let plain = folded(alloc, tree)?;
    checked(alloc, &plain)?;
    let isa = built(alloc, &plain)?;
    let _ = isa.parts();
    Ok(isa)
}

/// The processor that a text describes with what a command needs, or why there is none.
#[tactic(auto, using(crate::proofs::Described::faulty_for, crate::proofs::Described::lacking_fault))]
pub(crate) fn description_for(
    alloc: Global,
    text: &[u8],
    needs: Needs,
) -> Result<Isa, DescriptionFault>
    ensures isa { IfOk result (λ isa. IsDescription text.now isa) }
    ensures needs { IfOk result (λ isa. lacking needs isa ≡ None) }
    ensures memory_free { IfOk result (λ isa. IsTrue (is_memory_free isa)) }
    ensures fault { IfErr result (λ fault. IsFaultFor text.now needs fault) }
{
    let isa = description_of(alloc, text)?;
    match needs.lacking(&isa) {
        None => Ok(isa),
        Some(rule) => Err(DescriptionFault::broken(rule, text.len())),
    }
}
