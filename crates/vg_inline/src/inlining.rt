//! Expressions with everything in place of their names.
ghost use Rattle.std.specs.Prelude.{◌≡◌, ◌∷◌, [], map, slice_get, IfOk};
ghost use Rattle.std.specs.Option.{option_copied};
ghost use Rattle.vg_ast.specs.Start.{start_of as start_of_expression};
ghost use Rattle.vg_names.specs.Definition.{item_named};
ghost use Rattle.vg_names.specs.Numbers.{number_named};
ghost use Rattle.vg_names.specs.Worked.{value_at};
ghost use Rattle.vg_whole.specs.Whole.{binary_whole, inner_of};
ghost use Rattle.vg_inline.specs.declared.head.Head.TheVariants.{Binary};
ghost use Rattle.vg_inline.specs.declared.keep.Keep.{Keep as AnyKeep};
ghost use Rattle.vg_inline.specs.Types.{type_of, type_worths};
ghost use Rattle.vg_inline.specs.Inline.{called, callee_of, constant_or as constant_or_of, first_start as first_start_of, named_value, number_or, number_value, taking_types, typed as typed_of, whole_or as whole_or_of};
ghost use Rattle.vg_inline.specs.Kept.{added as added_of, gathered, kept_argument, kept_call, kept_missing, kept_node, keeping_as, no_trees as no_trees_of};
ghost use Rattle.vg_inline.specs.Context.{Kepts, aliases_in, constants_in, found_value, inlined_at, inner_at, items_of, known_in, parameter_type, taken_at, tree_at};

use crate::calling::call;
use crate::context::{Context, alias, constant, number};
use crate::copying::copy_kept;
use crate::find::{find, function_called};
use crate::found::Found;
use crate::keep::Keep;
use crate::keeping::{added, leaf, missing, no_trees, node};
use crate::kept::{Kept, KeptList};
use crate::names::Names;
use crate::whole::declared_type;
use crate::{Declared, Head, Value};
use sqlite_items::{Boxed, Items};
use std::alloc::{AllocError, Global};
use vg_ast::{BinaryOperator, Expr, Name, Parameter, TypeExpr, start_of};
use vg_whole::{Worth, worth_of_binary};

/// What has a type.
fn typed(tree: Option<Kept>) -> Value<Option<Kept>>
    ensures { result ≡ typed_of tree }
{
    Value {
        worth: Worth::Typed,
        tree,
    }
}

/// One node in place of a whole number, whatever it was worked out from.
fn whole_or(
    alloc: Global,
    worth: Worth,
    tree: Option<Kept>,
    keep: Keep,
) -> Result<Option<Kept>, AllocError>
    ensures { IfOk result (λ it. it ≡ whole_or_of (keeping_as keep) worth tree) }
{
    match worth {
        Worth::Whole(value) => leaf(alloc, Head::Whole { value: Some(value) }, keep),
        Worth::NoValue => leaf(alloc, Head::Whole { value: None }, keep),
        Worth::Typed => Ok(tree),
    }
}

/// A whole number takes the type that is declared where it stands.
pub(crate) fn constant_or(
    alloc: Global,
    declared: Declared,
    worth: Worth,
    tree: Option<Kept>,
    keep: Keep,
) -> Result<Option<Kept>, AllocError>
    ensures { IfOk result (λ it. it ≡ constant_or_of (keeping_as keep) declared worth tree) }
{
    let value = match worth {
        Worth::Whole(value) => Some(value),
        Worth::NoValue => None,
        Worth::Typed => return Ok(tree),
    };
    leaf(alloc, Head::Constant { value, declared }, keep)
}

/// A whole number.
fn inline_number(alloc: Global, value: u128, keep: Keep) -> Result<Value<Option<Kept>>, AllocError>
    ensures { IfOk result (λ it. it ≡ number_value (keeping_as keep) value) }
{
    let tree = leaf(alloc, Head::Whole { value: Some(value) }, keep)?;
    Ok(Value {
        worth: Worth::Whole(value),
        tree,
    })
}

/// What an inner name stands for, where it is used.
fn inline_found(alloc: Global, found: Found, keep: Keep) -> Result<Value<Option<Kept>>, AllocError>
    ensures { IfOk result (λ value. value ≡ found_value keep found.entry) }
{
    match found {
        Found::Field(field) => Ok(typed(leaf(alloc, Head::Field { field }, keep)?)),
        Found::Parameter(parameter) => Ok(typed(leaf(alloc, Head::Parameter { parameter }, keep)?)),
        Found::Bound(value) => {
            let tree = copy_kept(alloc, &value.tree)?;
            Ok(Value {
                worth: value.worth,
                tree,
            })
        }
    }
}

/// What stands in place of a name.
fn inline_name(
    alloc: Global,
    text: &[char],
    context: &Context,
    names: &Names,
) -> Result<Value<Option<Kept>>, AllocError>
    ensures { IfOk result (λ value. value ≡ named_value (keeping_as context.now.keep) (inner_of (inner_at context.now names.now) text.now) (constants_in context.now text.now) (number_or (number_named (items_of context.now) text.now))) }
{
    match find(text, names, context) {
        Some(found) => inline_found(alloc, found, context.keep),
        None => {
            let worth = constant(context, text);
            let item = number(context, text);
            let resource = leaf(alloc, Head::Resource { item }, context.keep)?;
            let tree = whole_or(alloc, worth, resource, context.keep)?;
            Ok(Value { worth, tree })
        }
    }
}

/// The body of the item of a number.
fn body_at<'a>(bodies: &'a [Option<Kept>], number: Option<usize>) -> Option<&'a Option<Kept>>
    ensures { (keep : AnyKeep) → kept_argument keep (option_copied result) ≡ value_at (kept_missing keep) bodies.now number }
{
    match number {
        None => None,
        Some(number) => bodies.get(number),
    }
}

/// A call of the function of a name.
fn inline_body(
    alloc: Global,
    text: &[char],
    arguments: &[Option<Kept>],
    context: &Context,
) -> Result<Option<Kept>, AllocError>
    ensures { IfOk result (λ tree. tree ≡ kept_call context.now.keep arguments.now ((known_in context.now).bodies text.now)) }
{
    match body_at(context.bodies, context.table.number(text)) {
        None => call(
            alloc,
            arguments,
            &missing(alloc, context.keep)?,
            context.keep,
        ),
        Some(body) => call(alloc, arguments, body, context.keep),
    }
}

fn parameter_at(parameters: &[Parameter], position: usize) -> Option<&Parameter>
    ensures { option_copied result ≡ slice_get parameters.now position }
{
    parameters.get(position)
}

/// An argument takes the type of its parameter.
fn take_type(
    alloc: Global,
    value: Value<Option<Kept>>,
    parameters: &[Parameter],
    position: usize,
    context: &Context,
) -> Result<Option<Kept>, AllocError>
    ensures { IfOk result (λ tree. tree ≡ taken_at context.now.keep (parameter_type context.now) (slice_get parameters.now position) value) }
{
    match parameter_at(parameters, position) {
        None => Ok(value.tree),
        Some(parameter) => {
            let declared = declared_type(&parameter.declared, context);
            constant_or(alloc, declared, value.worth, value.tree, context.keep)
        }
    }
}

/// The place of the first of these expressions, or of the name where there is none.
fn first_start(at: usize, expressions: &[Expr]) -> usize
    ensures { result ≡ first_start_of at (map start_of_expression expressions.now) }
{
    match expressions {
        [] => at,
        [first, ..] => start_of(first),
    }
}

/// An operator between two values.
fn operate(
    alloc: Global,
    operator: BinaryOperator,
    left: Value<Option<Kept>>,
    right: Value<Option<Kept>>,
    keep: Keep,
) -> Result<Value<Option<Kept>>, AllocError>
    ensures worth { IfOk result (λ value. value.worth ≡ binary_whole operator left.worth right.worth) }
    ensures tree { IfOk result (λ value. value.tree ≡ whole_or_of (keeping_as keep) (binary_whole operator left.worth right.worth) (kept_node keep (Binary operator) (left.tree ∷ right.tree ∷ []))) }
{
    let worth = worth_of_binary(operator, left.worth, right.worth);
    let parts = added(no_trees(alloc), left.tree, keep)?;
    let parts = added(parts, right.tree, keep)?;
    let tree = node(alloc, Head::Binary { operator }, parts, keep)?;
    let tree = whole_or(alloc, worth, tree, keep)?;
    Ok(Value { worth, tree })
}

/// An expression with everything in place of its names.
#[cycle(inline)]
#[tactic(auto, using(crate::proofs::InlineLemmas::inline_steps))]
pub(crate) fn inline(
    alloc: Global,
    e: &Expr,
    context: &Context,
    names: &Names,
) -> Result<Value<Option<Kept>>, AllocError>
    ensures { IfOk result (λ value. value ≡ inlined_at context.now names.now e.now) }
{
    match e {
        Expr::Number { value, .. } => inline_number(alloc, *value, context.keep),
        Expr::Name(name) => inline_name(alloc, name.text.as_slice(), context, names),
        Expr::Call { name, arguments } => {
            inline_call(alloc, name, arguments.as_slice(), context, names)
        }
        Expr::Access {
            memory,
            size,
            address,
            ..
        } => {
            let size = inline(alloc, size.get(), context, names)?;
            let head = Head::Access {
                at: memory.at,
                size: size.worth,
                address_at: start_of(address.get()),
            };
            inline_one(alloc, head, address.get(), context, names)
        }
        Expr::Join { high, low, .. } => {
            let parts = inline_part(alloc, high.get(), no_trees(alloc), context, names)?;
            let parts = inline_part(alloc, low.get(), parts, context, names)?;
            Ok(typed(node(alloc, Head::Join, parts, context.keep)?))
        }
        Expr::Parentheses { inner, .. } => inline(alloc, inner.get(), context, names),
        Expr::Unary {
            operator,
            operand,
            ..
        } => {
            let head = Head::Unary {
                operator: *operator,
            };
            inline_one(alloc, head, operand.get(), context, names)
        }
        Expr::Binary {
            operator,
            left,
            right,
            ..
        } => {
            let left = inline(alloc, left.get(), context, names)?;
            let right = inline(alloc, right.get(), context, names)?;
            operate(alloc, *operator, left, right, context.keep)
        }
        Expr::Cast {
            operand,
            target,
            ..
        } => {
            let target = inline_type(alloc, target, context, names)?;
            inline_one(alloc, Head::Cast { target }, operand.get(), context, names)
        }
        Expr::Slice {
            operand,
            high,
            low,
            ..
        } => {
            let high = inline(alloc, high.get(), context, names)?;
            let low = inline(alloc, low.get(), context, names)?;
            let head = Head::Slice {
                high: high.worth,
                low: low.worth,
            };
            inline_one(alloc, head, operand.get(), context, names)
        }
        Expr::If {
            condition,
            then,
            otherwise,
            ..
        } => {
            let parts = inline_part(alloc, condition.get(), no_trees(alloc), context, names)?;
            let parts = inline_part(alloc, then.get(), parts, context, names)?;
            let parts = inline_part(alloc, otherwise.get(), parts, context, names)?;
            Ok(typed(node(alloc, Head::If, parts, context.keep)?))
        }
        Expr::Let {
            name,
            bound,
            body,
            ..
        } => {
            let value = inline(alloc, bound.get(), context, names)?;
            let within = Names::Let {
                name,
                value: &value,
                outer: &*names,
            };
            inline(alloc, body.get(), context, &within)
        }
    }
}

/// What stands in place of an expression, behind other parts of a node; nothing is made behind too many.
#[cycle(inline)]
pub(crate) fn inline_part(
    alloc: Global,
    e: &Expr,
    parts: Option<KeptList>,
    context: &Context,
    names: &Names,
) -> Result<Option<KeptList>, AllocError>
    ensures { IfOk result (λ longer. longer ≡ added_of context.now.keep parts (tree_at context.now names.now e.now)) }
{
    match parts {
        None => Ok(None),
        Some(parts) => {
            let value = inline(alloc, e, context, names)?;
            added(Some(parts), value.tree, context.keep)
        }
    }
}

/// A node over one part.
#[cycle(inline)]
fn inline_one(
    alloc: Global,
    head: Head,
    part: &Expr,
    context: &Context,
    names: &Names,
) -> Result<Value<Option<Kept>>, AllocError>
    ensures { IfOk result (λ value. value ≡ typed_of (kept_node context.now.keep head (tree_at context.now names.now part.now ∷ []))) }
{
    let parts = inline_part(alloc, part, no_trees(alloc), context, names)?;
    Ok(typed(node(alloc, head, parts, context.keep)?))
}

/// The type of a cast.
#[cycle(inline)]
fn inline_type(
    alloc: Global,
    target: &TypeExpr<Boxed<Expr>>,
    context: &Context,
    names: &Names,
) -> Result<Declared, AllocError>
    ensures { IfOk result (λ declared. declared ≡ type_of (aliases_in context.now) (type_worths (λ e. (inlined_at context.now names.now e).worth) target.now)) }
{
    match target {
        TypeExpr::Sized { kind, width, .. } => {
            let width = inline(alloc, width.get(), context, names)?;
            Ok(Declared::Sized {
                kind: *kind,
                width: width.worth,
            })
        }
        TypeExpr::Bool { .. } => Ok(Declared::Bool),
        TypeExpr::Alias(name) => Ok(alias(context, name.text.as_slice())),
    }
}

/// A call of a function, or a register of a register file.
#[cycle(inline)]
fn inline_call(
    alloc: Global,
    name: &Name,
    arguments: &[Expr],
    context: &Context,
    names: &Names,
) -> Result<Value<Option<Kept>>, AllocError>
    ensures { IfOk result (λ value. value ≡ typed_of (called (keeping_as context.now.keep) (items_of context.now) (known_in context.now) (callee_of (inner_of (inner_at context.now names.now) name.now.text) (item_named (items_of context.now) name.now.text)) name.now (first_start_of name.now.at (map start_of_expression arguments.now)) (map (inlined_at context.now names.now) arguments.now))) }
{
    match function_called(name.text.as_slice(), names, context) {
        Some(parameters) => {
            let list = inline_arguments(alloc, arguments, parameters, context, names)?;
            let tree = inline_body(alloc, name.text.as_slice(), list.as_slice(), context)?;
            Ok(typed(tree))
        }
        None => {
            let list = inline_all(alloc, arguments, context, names)?;
            let head = Head::Indexed {
                item: number(context, name.text.as_slice()),
                at: name.at,
                index_at: first_start(name.at, arguments),
            };
            let register = node(alloc, head, list, context.keep)?;
            Ok(typed(register))
        }
    }
}

/// The arguments of a function, each with the type of its parameter.
#[cycle(inline)]
fn inline_arguments(
    alloc: Global,
    arguments: &[Expr],
    parameters: &[Parameter],
    context: &Context,
    names: &Names,
) -> Result<Items<Option<Kept>>, AllocError>
    ensures { IfOk result (λ list. list ≡ taking_types (keeping_as context.now.keep) (parameter_type context.now) parameters.now (map (inlined_at context.now names.now) arguments.now)) }
{
    let mut list = Items::new(alloc);
    for (position, argument) in arguments.iter().enumerate() {
        let value = inline(alloc, argument, context, names)?;
        let tree = take_type(alloc, value, parameters, position, context)?;
        list.push(tree)?;
    }
    Ok(list)
}

/// The index of a register.
#[cycle(inline)]
fn inline_all(
    alloc: Global,
    arguments: &[Expr],
    context: &Context,
    names: &Names,
) -> Result<Option<KeptList>, AllocError>
    ensures { IfOk result (λ list. list ≡ gathered context.now.keep no_trees_of (map (tree_at context.now names.now) arguments.now)) }
{
    let mut list = no_trees(alloc);
    for argument in arguments {
        list = inline_part(alloc, argument, list, context, names)?;
    }
    Ok(list)
}
