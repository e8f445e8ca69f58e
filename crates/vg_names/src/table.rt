ghost use Rattle.std.specs.Prelude.{◌≡◌, ℕ, [], ◌∷◌, map, Some, None, OnOk, IfOk, if◌then◌else◌};
ghost use Rattle.std.specs.Option.{option_copied, option_or};
ghost use Rattle.std.specs.Str.{bytes_eq};
ghost use Rattle.std.proofs.Props.{props};
ghost use Rattle.vg_ast.specs.declared.field.Field.{Field};
ghost use Rattle.vg_ast.specs.declared.parameter.Parameter.{Parameter};
ghost use Rattle.vg_names.specs.declared.scope.Scope.TheVariants.{Fields, Parameters};
ghost use Rattle.vg_names.specs.Definition.{Text, definition_of, defines, item_named, meaning_in};
ghost use Rattle.vg_names.specs.Met.{Key, keys_met};
ghost use Rattle.vg_names.specs.Table.{number_from, found_at, inside, inside_from, has, Adds};

use crate::Scope;
use crate::meaning::{Meaning, defined_by, meaning_of_item};
use indexmap::{IndexMap, IndexSet};
use std::alloc::{AllocError, Global};
use vg_ast::{Field, Item, Name, Parameter};

/// The names of items, and those that stand inside of them.
#[derive(Drop)]
pub struct Table<'a> {
    pub items: &'a [Item],
    /// The number of the first item that defines a name.
    numbers: IndexMap<&'a [char], usize>,
    /// The fields of formats and the parameters of functions, each in the scope of its item, and the encodings.
    inner: IndexSet<(Scope, &'a [char])>,
    ghost numbered: { (text : Text) → found_at numbers text ≡ number_from 0 items.now text } by { Prim.hlevel props },
    ghost holds: { (key : Key) → has (keys_met inner) key ≡ has (inside_from 0 items.now) key } by { Prim.hlevel props },
}

impl<'a> Table<'a> {
    pub fn new(alloc: Global, items: &'a [Item]) -> Result<Table<'a>, AllocError>
        ensures { IfOk result (λ table. table.items.now ≡ items.now) }
    {
        let numbers = numbers_of(alloc, items)?;
        let inner = inner_of(alloc, items)?;
        Ok(Table {
            items,
            numbers,
            inner,
        })
    }

    /// The number of the first item that defines a name.
    pub fn number(&self, text: &[char]) -> Option<usize>
        ensures { result ≡ number_from 0 self.now.items.now text.now }
    {
        self.numbers.get(text).copied()
    }

    /// The first item that defines a name.
    #[tactic(auto, using(crate::proofs::InnerLemmas::numbered_item, crate::proofs::InnerLemmas::unnumbered_item))]
    pub fn item(&self, text: &[char]) -> Option<&'a Item>
        ensures { option_copied result ≡ item_named self.now.items.now text.now }
    {
        let number = self.number(text)?;
        self.items.get(number)
    }

    /// What a name stands for among the items.
    #[tactic(auto, using(crate::proofs::InnerLemmas::meaning_named, crate::proofs::InnerLemmas::meaning_unnamed))]
    pub fn meaning(&self, text: &[char]) -> Option<Meaning>
        ensures { result ≡ meaning_in self.now.items.now text.now }
    {
        meaning_of_item(self.item(text)?)
    }

    /// Whether a name stands inside of items in a scope.
    pub fn has(&self, scope: Scope, text: &[char]) -> bool
        ensures { result ≡ has (inside_from 0 self.now.items.now) (scope, text.now) }
    {
        self.inner.contains(&(scope, text))
    }
}

/// Notes the number of an item for its name, unless the name has one.
fn note_number<'a>(
    numbers: &mut IndexMap<&'a [char], usize>,
    text: &'a [char],
    number: usize,
) -> Result<(), AllocError>
    ensures { OnOk result ((other : Text) → found_at numbers.new other ≡ option_or (found_at numbers.old other) (if bytes_eq text.now other then Some number else None)) }
{
    if numbers.contains_key(text) {
        return Ok(());
    }
    numbers.insert(text, number)?;
    Ok(())
}

/// Notes the number of an item for the name that it defines, unless the name has one.
#[tactic(auto, using(crate::proofs::TableLemmas::defines_none, crate::proofs::TableLemmas::defines_some))]
fn note_item<'a>(
    numbers: &mut IndexMap<&'a [char], usize>,
    number: usize,
    item: &'a Item,
) -> Result<(), AllocError>
    ensures { OnOk result ((other : Text) → found_at numbers.new other ≡ option_or (found_at numbers.old other) (if defines other (definition_of item.now) then Some number else None)) }
{
    match defined_by(item) {
        None => Ok(()),
        Some(name) => note_number(numbers, name.text.as_slice(), number),
    }
}

/// The number of the first item that defines each name.
fn numbers_of<'a>(
    alloc: Global,
    items: &'a [Item],
) -> Result<IndexMap<&'a [char], usize>, AllocError>
    ensures { IfOk result (λ numbers. (text : Text) → found_at numbers text ≡ number_from 0 items.now text) }
{
    let mut numbers = IndexMap::new(alloc);
    for (number, item) in items.iter().enumerate() {
        note_item(&mut numbers, number, item)?;
    }
    Ok(numbers)
}

/// Notes a name in a scope.
fn note<'a>(
    inner: &mut IndexSet<(Scope, &'a [char])>,
    scope: Scope,
    name: &'a Name,
) -> Result<(), AllocError>
    ensures { OnOk result (Adds (keys_met inner.old) ((scope, name.now.text) ∷ []) (keys_met inner.new)) }
{
    inner.insert((scope, name.text.as_slice()))?;
    Ok(())
}

fn note_parameters<'a>(
    inner: &mut IndexSet<(Scope, &'a [char])>,
    item: usize,
    parameters: &'a [Parameter],
) -> Result<(), AllocError>
    ensures { OnOk result (Adds (keys_met inner.old) (map (λ (parameter : Parameter). (Parameters item, parameter.name.text)) parameters.now) (keys_met inner.new)) }
{
    for parameter in parameters {
        note(inner, Scope::Parameters(item), &parameter.name)?;
    }
    Ok(())
}

fn note_fields<'a>(
    inner: &mut IndexSet<(Scope, &'a [char])>,
    item: usize,
    fields: &'a [Field],
) -> Result<(), AllocError>
    ensures { OnOk result (Adds (keys_met inner.old) (map (λ (field : Field). (Fields item, field.name.text)) fields.now) (keys_met inner.new)) }
{
    for field in fields {
        note(inner, Scope::Fields(item), &field.name)?;
    }
    Ok(())
}

/// Notes what stands inside of the item of this number.
fn note_inside<'a>(
    inner: &mut IndexSet<(Scope, &'a [char])>,
    number: usize,
    item: &'a Item,
) -> Result<(), AllocError>
    ensures { OnOk result (Adds (keys_met inner.old) (inside number item.now) (keys_met inner.new)) }
{
    match item {
        Item::Function { parameters, .. } => note_parameters(inner, number, parameters.as_slice()),
        Item::Format { fields, .. } => note_fields(inner, number, fields.as_slice()),
        Item::Encoding { name, .. } => note(inner, Scope::Encodings, name),
        _ => Ok(()),
    }
}

/// What stands inside of the items.
fn inner_of<'a>(
    alloc: Global,
    items: &'a [Item],
) -> Result<IndexSet<(Scope, &'a [char])>, AllocError>
    ensures { IfOk result (λ inner. (key : Key) → has (keys_met inner) key ≡ has (inside_from 0 items.now) key) }
{
    let mut inner = IndexSet::new(alloc);
    for (number, item) in items.iter().enumerate() {
        note_inside(&mut inner, number, item)?;
    }
    Ok(inner)
}
