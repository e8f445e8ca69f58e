ghost use Rattle.std.specs.Prelude.{◌≡◌, ◌+◌, ◌<◌, [], ◌∷◌, ◌++◌, map, length, Ok, None, IfOk};
ghost use Rattle.vg_ast.specs.declared.field.Field.{Field};
ghost use Rattle.vg_ast.specs.declared.parameter.Parameter.{Parameter};
ghost use Rattle.vg_names.specs.declared.scope.Scope.TheVariants.{Fields, Operands, Parameters};
ghost use Rattle.vg_names.specs.Duplicate.{claim as claim_of, claims, claims_from, item_claims as claims_of_item, operands_of, operand_of, stage_claims as claims_of_stages};
ghost use Rattle.std.specs.Option.{option_copied};
ghost use Rattle.vg_names.specs.Met.{names_in, key_text, key_of, keys_met, repeat_at, first_repeat};

use indexmap::IndexSet;
use std::alloc::AllocError;
use vg_ast::{Desc, Field, Item, MicroItem, Name, Parameter, Part};
use vg_names::Scope;

/// The claims that were met, each as its scope and its name.
pub type Met<'a> = IndexSet<(Scope, &'a [char])>;

/// What a claim takes in its scope.
fn claimed_text<'a>(scope: Scope, name: &'a Name) -> &'a [char]
    ensures { result.now ≡ key_text scope name.now }
{
    match scope {
        Scope::ProgramCounter | Scope::Memory => &[],
        _ => name.text.as_slice(),
    }
}

/// The place of a name, where its scope has it already; else it is met now.
fn claim<'a>(met: &mut Met<'a>, scope: Scope, name: &'a Name) -> Result<Option<usize>, AllocError>
    ensures found { IfOk result (λ found. found ≡ repeat_at (keys_met met.old) (claim_of scope name.now)) }
    ensures met { result ≡ Ok None → keys_met met.new ≡ keys_met met.old ++ key_of (claim_of scope name.now) ∷ [] }
{
    let text = claimed_text(scope, name);
    if met.insert((scope, text))? {
        Ok(None)
    } else {
        Ok(Some(name.at))
    }
}

/// The first parameter of the item of this number that repeats a claim.
fn parameter_claims<'a>(
    met: &mut Met<'a>,
    item: usize,
    parameters: &'a [Parameter],
) -> Result<Option<usize>, AllocError>
    ensures found { IfOk result (λ found. found ≡ first_repeat (keys_met met.old) (map (λ (parameter : Parameter). claim_of (Parameters item) parameter.name) parameters.now)) }
    ensures met { result ≡ Ok None → keys_met met.new ≡ keys_met met.old ++ map key_of (map (λ (parameter : Parameter). claim_of (Parameters item) parameter.name) parameters.now) }
{
    for parameter in parameters {
        if let Some(at) = claim(met, Scope::Parameters(item), &parameter.name)? {
            return Ok(Some(at));
        }
    }
    Ok(None)
}

/// The first field of the item of this number that repeats a claim.
fn field_claims<'a>(
    met: &mut Met<'a>,
    item: usize,
    fields: &'a [Field],
) -> Result<Option<usize>, AllocError>
    ensures found { IfOk result (λ found. found ≡ first_repeat (keys_met met.old) (map (λ (field : Field). claim_of (Fields item) field.name) fields.now)) }
    ensures met { result ≡ Ok None → keys_met met.new ≡ keys_met met.old ++ map key_of (map (λ (field : Field). claim_of (Fields item) field.name) fields.now) }
{
    for field in fields {
        if let Some(at) = claim(met, Scope::Fields(item), &field.name)? {
            return Ok(Some(at));
        }
    }
    Ok(None)
}

/// The field that a part of an assembly names.
fn operand(part: &Part) -> Option<&Name>
    ensures { operand_of part.now ≡ names_in (option_copied result) }
{
    match part {
        Part::Text { .. } | Part::Mnemonic { .. } => None,
        Part::Register { field, .. } | Part::Number { field, .. } | Part::Target { field, .. } =>
            Some(field),
    }
}

/// The first operand of the item of this number that repeats a claim.
fn operand_claims<'a>(
    met: &mut Met<'a>,
    item: usize,
    parts: &'a [Part],
) -> Result<Option<usize>, AllocError>
    ensures found { IfOk result (λ found. found ≡ first_repeat (keys_met met.old) (map (λ field. claim_of (Operands item) field) (operands_of parts.now))) }
    ensures met { result ≡ Ok None → keys_met met.new ≡ keys_met met.old ++ map key_of (map (λ field. claim_of (Operands item) field) (operands_of parts.now)) }
{
    for part in parts {
        if let Some(field) = operand(part)
            && let Some(at) = claim(met, Scope::Operands(item), field)?
        {
            return Ok(Some(at));
        }
    }
    Ok(None)
}

/// The first claim of the item of this number that repeats one.
fn item_claims<'a>(
    met: &mut Met<'a>,
    number: usize,
    item: &'a Item,
) -> Result<Option<usize>, AllocError>
    ensures found { IfOk result (λ found. found ≡ first_repeat (keys_met met.old) (claims_of_item number item.now)) }
    ensures met { result ≡ Ok None → keys_met met.new ≡ keys_met met.old ++ map key_of (claims_of_item number item.now) }
{
    match item {
        Item::Constant { name, .. }
        | Item::Using { name, .. }
        | Item::Register { name, .. }
        | Item::RegisterFile { name, .. }
        | Item::Instruction { name, .. } => claim(met, Scope::Items, name),
        Item::Encoding { name, .. } => claim(met, Scope::Encodings, name),
        Item::ProgramCounter { name, .. } => {
            if let Some(at) = claim(met, Scope::Items, name)? {
                return Ok(Some(at));
            }
            claim(met, Scope::ProgramCounter, name)
        }
        Item::Memory { name, .. } => {
            if let Some(at) = claim(met, Scope::Items, name)? {
                return Ok(Some(at));
            }
            claim(met, Scope::Memory, name)
        }
        Item::Function {
            name,
            parameters,
            ..
        } => {
            if let Some(at) = claim(met, Scope::Items, name)? {
                return Ok(Some(at));
            }
            parameter_claims(met, number, parameters.as_slice())
        }
        Item::Format { name, fields, .. } => {
            if let Some(at) = claim(met, Scope::Items, name)? {
                return Ok(Some(at));
            }
            field_claims(met, number, fields.as_slice())
        }
        Item::Assembly { name, parts, .. } => {
            if let Some(at) = claim(met, Scope::Assemblies, name)? {
                return Ok(Some(at));
            }
            operand_claims(met, number, parts.as_slice())
        }
    }
}

/// The first claim of the items that repeats one.
fn items_claims<'a>(met: &mut Met<'a>, items: &'a [Item]) -> Result<Option<usize>, AllocError>
    ensures found { IfOk result (λ found. found ≡ first_repeat (keys_met met.old) (claims_from 0 items.now)) }
    ensures met { result ≡ Ok None → keys_met met.new ≡ keys_met met.old ++ map key_of (claims_from 0 items.now) }
{
    for (number, item) in items.iter().enumerate() {
        if let Some(at) = item_claims(met, number, item)? {
            return Ok(Some(at));
        }
    }
    Ok(None)
}

/// The first stage that repeats a claim.
fn stage_claims<'a>(met: &mut Met<'a>, lines: &'a [MicroItem]) -> Result<Option<usize>, AllocError>
    ensures { IfOk result (λ found. found ≡ first_repeat (keys_met met.old) (claims_of_stages lines.now)) }
{
    for line in lines {
        if let MicroItem::Stage { name, .. } = line
            && let Some(at) = claim(met, Scope::Stages, name)?
        {
            return Ok(Some(at));
        }
    }
    Ok(None)
}

/// The first claim of a description that repeats one.
#[tactic(auto, using(vg_names::proofs::MetLemmas::repeat_in_items, vg_names::proofs::MetLemmas::repeat_behind))]
pub fn first_repeated<'a>(
    met: &mut Met<'a>,
    description: &'a Desc,
) -> Result<Option<usize>, AllocError>
    ensures { IfOk result (λ found. found ≡ first_repeat (keys_met met.old) (claims description.now)) }
{
    if let Some(at) = items_claims(met, description.items.as_slice())? {
        return Ok(Some(at));
    }
    match &description.micro {
        None => Ok(None),
        Some(micro) => stage_claims(met, micro.items.as_slice()),
    }
}
