//! Encodings that name a field twice, or give it a value that doesn't fit.
#![tactic(auto, using(vg_names::proofs::FirstLemmas::first_steps))]

ghost use Rattle.std.specs.Prelude.{◌≡◌, ◌||◌, ◌++◌, ◌∷◌, [], not, true, false, Ok, IfOk};
ghost use Rattle.vg_inline.specs.Context.{constants_in, items_of};
ghost use Rattle.vg_names.specs.Definition.{is_among, item_named};
ghost use Rattle.vg_names.specs.First.{first_of};
ghost use Rattle.vg_type.specs.Scope.{field_sorts};
ghost use Rattle.vg_type.specs.Setting.{setting_in, sorts_of};
ghost use Rattle.vg_declare.specs.FieldValue.{fits_field, format_of, is_wrong_fix, item_values, values, wrong_fixes};
ghost use Rattle.vg_declare.specs.Named.{texts_in};

use indexmap::IndexSet;
use std::alloc::{AllocError, Global};
use vg_ast::{Fix, Item, Name};
use vg_inline::{Context, worth_of};
use vg_type::{Names, Setting, Sort, fields_in, find, fits};
use vg_whole::Worth;

/// Whether a number fits what a field is.
fn fits_field(field: Option<Sort>, value: Worth) -> bool
    ensures { result ≡ fits_field field value }
{
    match (field, value) {
        (Some(Sort::Typed { has }), Worth::Whole(value)) => fits(value, has),
        _ => true,
    }
}

/// Notes a field that is named; false where it was named before.
fn note<'a>(named: &mut IndexSet<&'a [char]>, field: &'a Name) -> Result<bool, AllocError>
    ensures added { IfOk result (λ added. added ≡ not (is_among field.now.text (texts_in named.old))) }
    ensures named { result ≡ Ok true → texts_in named.new ≡ texts_in named.old ++ field.now.text ∷ [] }
{
    let added = named.insert(field.text.as_slice())?;
    Ok(added)
}

/// Whether a field was named before or its value doesn't fit; else it is named now.
fn is_wrong<'a>(
    named: &mut IndexSet<&'a [char]>,
    fix: &'a Fix,
    fields: &Names,
    context: &Context,
) -> Result<bool, AllocError>
    ensures wrong { IfOk result (λ wrong. wrong ≡ is_wrong_fix (setting_in context.now) (sorts_of context.now fields.now) (texts_in named.old) fix.now) }
    ensures named { result ≡ Ok false → texts_in named.new ≡ texts_in named.old ++ fix.now.name.text ∷ [] }
{
    let added = note(named, &fix.name)?;
    if !added {
        return Ok(true);
    }
    let field = find(fix.name.text.as_slice(), fields, context);
    let fits = fits_field(field, worth_of(fix.value.get(), context));
    Ok(!fits)
}

/// The first field that an encoding names again, or whose value doesn't fit.
fn first_wrong(
    alloc: Global,
    fixes: &[Fix],
    fields: &Names,
    context: &Context,
) -> Result<Option<usize>, AllocError>
    ensures { IfOk result (λ found. found ≡ first_of (wrong_fixes (setting_in context.now) (sorts_of context.now fields.now) [] fixes.now)) }
{
    let mut named = IndexSet::new(alloc);
    for fix in fixes {
        if is_wrong(&mut named, fix, fields, context)? {
            return Ok(Some(fix.name.at));
        }
    }
    Ok(None)
}

/// The fields of the format of an instruction of this name.
fn fields_encoded(instruction: &Name, setting: &Setting) -> Names<'static>
    ensures { let x = setting.now.context.now in sorts_of x result ≡ field_sorts (constants_in x) (format_of (items_of x) (item_named (items_of x) instruction.now.text)) }
{
    match setting.context.table.item(instruction.text.as_slice()) {
        Some(Item::Instruction { format, .. }) => fields_in(format, setting),
        _ => Names::Nothing,
    }
}

fn item_unfit(alloc: Global, item: &Item, setting: &Setting) -> Result<Option<usize>, AllocError>
    ensures { IfOk result (λ found. found ≡ first_of (item_values (setting_in setting.now.context.now) item.now)) }
{
    match item {
        Item::Encoding { name, fixes, .. } => {
            let fields = fields_encoded(name, setting);
            first_wrong(alloc, fixes.as_slice(), &fields, setting.context)
        }
        _ => Ok(None),
    }
}

/// The first place at which an encoding names a field again, or gives it a value that doesn't fit.
pub fn first_unfit(alloc: Global, setting: &Setting) -> Result<Option<usize>, AllocError>
    ensures { IfOk result (λ found. found ≡ first_of (values (setting_in setting.now.context.now))) }
{
    for item in setting.context.table.items {
        if let Some(at) = item_unfit(alloc, item, setting)? {
            return Ok(Some(at));
        }
    }
    Ok(None)
}
