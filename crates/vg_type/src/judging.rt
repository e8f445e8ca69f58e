//! What is found of expressions.

ghost use Rattle.std.specs.Prelude.{◌≡◌, map, length};
ghost use Rattle.vg_type.specs.Expression.{judged as judged_of, is_no_width as is_no_width_of, type_over};
ghost use Rattle.vg_type.specs.Found.{first_found};
ghost use Rattle.vg_ast.specs.declared.expr.Expr.TheVariants.{Call as call_expr};
ghost use Rattle.vg_type.specs.Calls.{signature_in, taken_from, types_asked, written_over, sized_found};
ghost use Rattle.vg_type.specs.Setting.{scope_in, sorts_of};

use crate::callee::{Callee, called_by};
use crate::calling::{both_taken, call, nothing, take_one, type_asked};
use crate::declaring::{address_type, is_bits};
use crate::finding::named;
use crate::judgement::Judgement;
use crate::names::Names;
use crate::setting::Setting;
use crate::settling::{
    access, binary, binding, cast, choice, join, number_width, parentheses, slice, sound, told,
    unary,
};
use crate::sort::{is_valueless, worth_of};
use crate::taking::Taking;
use crate::value_type::{sized_type, type_of};
use crate::written::Written;
use crate::{Sort, ValueType};
use sqlite_items::Boxed;
use vg_ast::{BitsKind, Expr, Item, Name, TypeExpr};
use vg_inline::{Declared, declared_type};

/// Whether a name is that of a memory of bytes.
pub fn is_memory(text: &[char], setting: &Setting) -> bool
    ensures { result ≡ (scope_in setting.now.context.now).is_memory text.now }
{
    match setting.context.table.item(text) {
        Some(Item::Memory { address, cell, .. }) => {
            is_bits(setting.width, declared_type(address, setting.context))
                && is_bits(Some(8), declared_type(cell, setting.context))
        }
        _ => false,
    }
}

/// The type of addresses.
pub fn address_of(setting: &Setting) -> Option<ValueType>
    ensures { result ≡ (scope_in setting.now.context.now).address }
{
    address_type(setting.width)
}

/// A type of this kind and a width of which this was found.
fn sized_written(kind: BitsKind, at: usize, width: Judgement) -> Written
    ensures { result ≡ sized_found kind at width }
{
    Written {
        blocked: is_valueless(width.sort),
        has: type_of(Declared::Sized {
            kind,
            width: worth_of(width.sort),
        }),
        width: number_width(width),
        range: told(is_no_width(width.sort), at).or(width.range),
    }
}

fn is_no_width(sort: Sort) -> bool
    ensures { result ≡ is_no_width_of sort }
{
    match sort {
        Sort::Whole { value } => value == 0 || value > 128,
        _ => false,
    }
}

/// What is found of an expression.
#[cycle(judged)]
#[tactic(auto, using(crate::proofs::JudgedLemmas::judged_steps))]
pub fn judged(e: &Expr, names: &Names, setting: &Setting) -> Judgement
    ensures { result ≡ first_found (judged_of (scope_in setting.now.context.now) e.now (sorts_of setting.now.context.now names.now)) }
{
    match e {
        Expr::Number { value, at } => sound(*at, Sort::Whole { value: *value }),
        Expr::Name(name) => sound(name.at, named(name.text.as_slice(), names, setting.context)),
        Expr::Call { name, arguments } => { called(name, arguments.as_slice(), names, setting) }
        Expr::Access {
            memory,
            at,
            size,
            address,
        } => access(
            is_memory(memory.text.as_slice(), setting),
            address_of(setting),
            memory.at,
            *at,
            judged(size.get(), names, setting),
            judged(address.get(), names, setting),
        ),
        Expr::Join { at, high, low } => join(
            *at,
            judged(high.get(), names, setting),
            judged(low.get(), names, setting),
        ),
        Expr::Parentheses { at, inner } => { parentheses(*at, judged(inner.get(), names, setting)) }
        Expr::Unary {
            operator,
            at,
            operand,
        } => unary(*operator, *at, judged(operand.get(), names, setting)),
        Expr::Binary {
            operator,
            at,
            left,
            right,
        } => binary(
            *operator,
            *at,
            judged(left.get(), names, setting),
            judged(right.get(), names, setting),
        ),
        Expr::Cast {
            operand,
            target,
            ..
        } => {
            let written = written(target, names, setting);
            cast(
                judged(operand.get(), names, setting),
                written.blocked,
                written.has,
                written.width,
                written.range,
            )
        }
        Expr::Slice {
            operand,
            at,
            high,
            low,
        } => slice(
            judged(operand.get(), names, setting),
            *at,
            judged(high.get(), names, setting),
            judged(low.get(), names, setting),
        ),
        Expr::If {
            at,
            condition,
            then,
            otherwise,
        } => choice(
            *at,
            judged(condition.get(), names, setting),
            judged(then.get(), names, setting),
            judged(otherwise.get(), names, setting),
        ),
        Expr::Let {
            at,
            name,
            bound,
            body,
        } => {
            let bound = judged(bound.get(), names, setting);
            let within = Names::Let {
                name,
                sort: bound.sort,
                outer: &*names,
            };
            binding(*at, bound, judged(body.get(), &within, setting))
        }
    }
}

/// What is found of the type of a cast.
#[cycle(judged)]
pub fn written(target: &TypeExpr<Boxed<Expr>>, names: &Names, setting: &Setting) -> Written
    ensures { result ≡ written_over (scope_in setting.now.context.now).aliases (type_over (λ e. judged_of (scope_in setting.now.context.now) e (sorts_of setting.now.context.now names.now)) target.now) }
{
    match target {
        TypeExpr::Sized { kind, at, width } => {
            sized_written(*kind, *at, judged(width.get(), names, setting))
        }
        TypeExpr::Bool { .. } => Written {
            blocked: false,
            has: Some(ValueType::Bool),
            width: None,
            range: None,
        },
        TypeExpr::Alias(_) => {
            let has = type_of(declared_type(target, setting.context));
            Written {
                blocked: has.is_none(),
                has,
                width: None,
                range: None,
            }
        }
    }
}

/// What is found of a call.
#[cycle(judged)]
fn called(name: &Name, arguments: &[Expr], names: &Names, setting: &Setting) -> Judgement
    ensures { result ≡ first_found (judged_of (scope_in setting.now.context.now) (call_expr name.now arguments.now) (sorts_of setting.now.context.now names.now)) }
{
    let callee = called_by(name.text.as_slice(), names, setting.context);
    let taking = taken(&callee, arguments, names, setting);
    call(name.at, &callee, arguments.len(), taking, setting.context)
}

/// What is found of arguments.
#[cycle(judged)]
fn taken(callee: &Callee, arguments: &[Expr], names: &Names, setting: &Setting) -> Taking
    ensures { result ≡ taken_from (types_asked (signature_in setting.now.context.now callee.now) (length arguments.now)) 0 (map (λ e. judged_of (scope_in setting.now.context.now) e (sorts_of setting.now.context.now names.now)) arguments.now) }
{
    let mut taking = nothing();
    for (k, argument) in arguments.iter().enumerate() {
        let has = type_asked(callee, arguments.len(), k, setting.context);
        taking = both_taken(taking, take_one(has, judged(argument, names, setting)));
    }
    taking
}
