//! What is found of a call.

ghost use Rattle.std.specs.Prelude.{◌≡◌, is_none, map};
ghost use Rattle.vg_ast.specs.declared.parameter.Parameter.{Parameter as ParameterOf};
ghost use Rattle.vg_inline.specs.declared.context.Context.{Context as ContextOf};
ghost use Rattle.vg_type.specs.Judged.{is_argument as is_argument_of};
ghost use Rattle.vg_type.specs.Scope.{type_in as type_declared};
ghost use Rattle.vg_type.specs.Setting.{globals_in};
ghost use Rattle.vg_type.specs.Calls.{signature_in, type_at, parameter_count as count_of, gives_type, is_wrong_signature, nothing_taken, take_one as take_one_of, both_taken as both_taken_of, is_any_none, types_asked, call_type as call_type_of, call_found};

use crate::callee::Callee;
use crate::declaring::type_in;
use crate::judgement::Judgement;
use crate::settling::{settled, unfit};
use crate::sort::{is_untyped, may_be};
use crate::taking::Taking;
use crate::{Sort, ValueType};
use vg_ast::Parameter;
use vg_inline::Context;

/// The type of the parameter of a number, if it has one.
pub fn parameter_type(callee: &Callee, k: usize, context: &Context) -> Option<ValueType>
    ensures { result ≡ type_at (signature_in context.now callee.now) k }
{
    match callee {
        Callee::Nothing => None,
        Callee::Function { parameters, .. } => {
            let parameter = parameters.get(k)?;
            type_in(&parameter.declared, context)
        }
        Callee::File { index, .. } => {
            if k == 0 {
                type_in(index, context)
            } else {
                None
            }
        }
    }
}

/// How many parameters there are.
fn parameter_count(callee: &Callee) -> usize
    ensures { (x : ContextOf) → result ≡ count_of (signature_in x callee.now) }
{
    match callee {
        Callee::Nothing => 0,
        Callee::Function { parameters, .. } => parameters.len(),
        Callee::File { .. } => 1,
    }
}

/// The type of what is given.
pub fn gives(callee: &Callee, context: &Context) -> Option<ValueType>
    ensures { result ≡ gives_type (signature_in context.now callee.now) }
{
    match callee {
        Callee::Nothing => None,
        Callee::Function { gives, .. } | Callee::File { gives, .. } => type_in(gives, context),
    }
}

/// The type that the parameter of a number asks for, where there are so many arguments.
pub fn type_asked(callee: &Callee, count: usize, k: usize, context: &Context) -> Option<ValueType>
    ensures { result ≡ types_asked (signature_in context.now callee.now) count k }
{
    if parameter_count(callee) == count {
        parameter_type(callee, k, context)
    } else {
        None
    }
}

fn is_argument(has: Option<ValueType>, sort: Sort) -> bool
    ensures { result ≡ is_argument_of has sort }
{
    match has {
        None => false,
        Some(has) => may_be(has, sort),
    }
}

/// No arguments.
pub fn nothing() -> Taking
    ensures { result ≡ nothing_taken }
{
    Taking {
        untyped: false,
        width: None,
        range: None,
        fits: true,
    }
}

/// One argument.
pub fn take_one(has: Option<ValueType>, argument: Judgement) -> Taking
    ensures { result ≡ take_one_of has argument }
{
    Taking {
        untyped: is_untyped(argument.sort),
        width: argument.width,
        range: argument.range.or(unfit(has, argument)),
        fits: is_argument(has, argument.sort),
    }
}

/// Arguments in front and behind.
pub fn both_taken(front: Taking, behind: Taking) -> Taking
    ensures { result ≡ both_taken_of front behind }
{
    Taking {
        untyped: front.untyped || behind.untyped,
        width: front.width.or(behind.width),
        range: front.range.or(behind.range),
        fits: front.fits && behind.fits,
    }
}

fn call_type(callee: &Callee, count: usize, taking: Taking, context: &Context) -> Option<ValueType>
    ensures { result ≡ call_type_of (signature_in context.now callee.now) count taking }
{
    if parameter_count(callee) == count && taking.fits {
        gives(callee, context)
    } else {
        None
    }
}

/// Whether one of the parameters has a type that is at fault.
fn is_any_wrong(parameters: &[Parameter], context: &Context) -> bool
    ensures { result ≡ is_any_none (map (λ (parameter : ParameterOf). type_declared (globals_in context.now) parameter.declared) parameters.now) }
{
    for parameter in parameters {
        if type_in(&parameter.declared, context).is_none() {
            return true;
        }
    }
    false
}

/// Whether a type that is called with is at fault where it is declared.
fn is_wrong(callee: &Callee, context: &Context) -> bool
    ensures { result ≡ is_wrong_signature (signature_in context.now callee.now) }
{
    match callee {
        Callee::Nothing => true,
        Callee::Function { parameters, gives } => {
            is_any_wrong(parameters, context) || type_in(gives, context).is_none()
        }
        Callee::File { index, gives } => {
            type_in(index, context).is_none() || type_in(gives, context).is_none()
        }
    }
}

/// A call over so many arguments of which this was found.
#[tactic(auto, unfolding(crate::specs::Calls::call_found))]
pub fn call(
    at: usize,
    callee: &Callee,
    count: usize,
    taking: Taking,
    context: &Context,
) -> Judgement
    ensures { result ≡ call_found at (signature_in context.now callee.now) count taking }
{
    settled(
        at,
        taking.untyped || is_wrong(callee, context),
        taking.width,
        taking.range,
        call_type(callee, count, taking, context),
    )
}
