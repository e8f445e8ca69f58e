//! The processor of a description.

ghost use Rattle.std.specs.Prelude.{◌≡◌, ◌⊎◌, ◌≤◌, ℕ, length, map, IfErr, IfOk, IsTrue};
ghost use Rattle.std.specs.List.{filter, list_all};
ghost use Rattle.vg_iss.specs.Kept.{is_memory_free};
ghost use Rattle.vg_inline.specs.InPlace.{known_of};
ghost use Rattle.vg_inline.specs.Rules.{IsFolded};
ghost use Rattle.vg_form.specs.declared.form.Form.{Form as TheForm};
ghost use Rattle.vg_form.specs.Form.{fits_fields, parts_of};
ghost use Rattle.vg_form.specs.Description.{declares, file_of, form_by, form_of, found, name_of, unlike};
ghost use Rattle.vg_form.specs.Finding.{FindsSo};
ghost use Rattle.vg_form.specs.Given.{doing, form_given, values_in};

use crate::build::isa_of_form;
use crate::declaring::behind_declarations;
use crate::fault::FormFault;
use crate::form::Form;
use crate::leaving::left;
use crate::naming::{is_ascii, text_of};
use crate::pairing::pairs;
use std::alloc::Global;
use vg_ast::{Desc, Name};
use vg_inline::{Context, Declared, Keep, Kept, Plain, make_bodies};
use vg_isa::{Isa, Text};
use vg_names::Table;
use vg_whole::Worth;

fn name(alloc: Global, name: &Name) -> Result<Text, FormFault>
    ensures { FindsSo (λ text. text) result (name_of name.now) }
{
    let characters = name.text.as_slice();
    if !is_ascii(characters) {
        return Err(FormFault::Unlike { at: name.at });
    }
    let text = text_of(alloc, characters)?;
    Ok(text)
}

/// The number of the register file.
fn file(context: &Context) -> usize
    ensures { result ≡ file_of context.now.table.now.items.now }
{
    match context.table.number(&['X']) {
        None => 0,
        Some(number) => number,
    }
}

/// The form of a description in a context.
fn form_in(alloc: Global, description: &Desc, context: &Context) -> Result<Form, FormFault>
    requires items { context.now.table.now.items.now ≡ description.now.items }
    ensures so { FindsSo (λ form. form) result (form_by description.now (values_in context.now) (map (doing context.now) (filter declares description.now.items))) }
    ensures fit { IfOk result (λ form. IsTrue (list_all fits_fields form.pairs)) }
    ensures few { IfOk result (λ form. length form.pairs ≤ 512) }
{
    let name = name(alloc, &description.name)?;
    let left = left(alloc, description.items.as_slice())?;
    let rest = behind_declarations(description.close, left.as_slice(), context)?;
    let pairs = pairs(alloc, description.close, rest, file(context), context)?;
    if let Some(abi) = &description.abi {
        return Err(FormFault::Unlike { at: abi.at });
    }
    if let Some(micro) = &description.micro {
        return Err(FormFault::Unlike { at: micro.at });
    }
    Ok(Form { name, pairs })
}

/// The processor of a description in a context.
fn isa_in(alloc: Global, description: &Desc, context: &Context) -> Result<Isa, FormFault>
    requires items { context.now.table.now.items.now ≡ description.now.items }
    ensures isa { let x = context.now in IfOk result (λ isa. (form : TheForm) × (form_by description.now (values_in x) (map (doing x) (filter declares description.now.items)) ≡ found form) × (isa ≡ parts_of form)) }
    ensures memory_free { IfOk result (λ isa. IsTrue (is_memory_free isa)) }
    ensures fault { let x = context.now in IfErr result (λ f. (f ≡ FormFault.OutOfMemory) ⊎ ((at : ℕ) × (f ≡ FormFault.Unlike at) × (form_by description.now (values_in x) (map (doing x) (filter declares description.now.items)) ≡ unlike at))) }
{
    let form = form_in(alloc, description, context)?;
    let isa = isa_of_form(alloc, &form)?;
    Ok(isa)
}

/// The processor of a description, by what is known of its items.
fn isa_by(
    alloc: Global,
    description: &Desc,
    table: &Table,
    worths: &[Worth],
    aliases: &[Declared],
    bodies: &[Option<Kept>],
    keep: Keep,
) -> Result<Isa, FormFault>
    requires items { table.now.items.now ≡ description.now.items }
    ensures isa { IfOk result (λ isa. (form : TheForm) × (form_given description.now table.now.items.now worths.now aliases.now keep bodies.now ≡ found form) × (isa ≡ parts_of form)) }
    ensures memory_free { IfOk result (λ isa. IsTrue (is_memory_free isa)) }
    ensures fault { IfErr result (λ f. (f ≡ FormFault.OutOfMemory) ⊎ ((at : ℕ) × (f ≡ FormFault.Unlike at) × (form_given description.now table.now.items.now worths.now aliases.now keep bodies.now ≡ unlike at))) }
{
    let context = Context {
        table,
        worths,
        aliases,
        bodies,
        keep,
        parameters: &[],
    };
    isa_in(alloc, description, &context)
}

/// The processor of a folded description, or the place of the first thing in the text that isn't built yet. What an
/// instruction does is made and dropped before the next.
pub fn isa_of(alloc: Global, plain: &Plain) -> Result<Isa, FormFault>
    requires folded { IsFolded plain.now.description plain.now }
    ensures isa { let d = plain.now.description in IfOk result (λ isa. (form : TheForm) × (form_of d (known_of d.items) ≡ found form) × (isa ≡ parts_of form)) }
    ensures memory_free { IfOk result (λ isa. IsTrue (is_memory_free isa)) }
    ensures fault { let d = plain.now.description in IfErr result (λ f. (f ≡ FormFault.OutOfMemory) ⊎ ((at : ℕ) × (f ≡ FormFault.Unlike at) × (form_of d (known_of d.items) ≡ unlike at))) }
{
    let table = Table::new(alloc, plain.description.items.as_slice())?;
    let bodies = make_bodies(alloc, &table, plain)?;
    isa_by(
        alloc,
        &plain.description,
        &table,
        plain.worths.as_slice(),
        plain.aliases.as_slice(),
        bodies.trees.as_slice(),
        bodies.keep,
    )
}
