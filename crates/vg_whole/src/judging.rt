ghost use Rattle.std.specs.Prelude.{◌≡◌, map};
ghost use Rattle.vg_names.specs.First.{first_of};
ghost use Rattle.vg_whole.specs.declared.worth.Worth.TheVariants.{Typed as is_typed};
ghost use Rattle.std.specs.Option.{option_or};
ghost use Rattle.vg_whole.specs.Whole.{binary_whole, operator_places, judged as judged_of, places_of_all};
ghost use Rattle.vg_whole.specs.Overflow.{type_overflows};
ghost use Rattle.vg_whole.specs.Bindings.{inner_worths};
ghost use Rattle.vg_whole.specs.Worths.{constants_by};

use crate::Worth;
use crate::bindings::{Bindings, worth_of};
use crate::judgement::Judgement;
use crate::operator::{place_of_binary, worth_of_binary};
use sqlite_items::Boxed;
use vg_ast::{BinaryOperator, Expr, TypeExpr};
use vg_names::Table;

/// What has a type, and the first place in it.
fn typed(place: Option<usize>) -> Judgement
    ensures worth { result.worth ≡ is_typed }
    ensures place { result.place ≡ place }
{
    Judgement {
        worth: Worth::Typed,
        place,
    }
}

/// What an operator makes of its operands, and the first place in them and it.
fn binary(operator: BinaryOperator, at: usize, left: Judgement, right: Judgement) -> Judgement
    ensures worth { result.worth ≡ binary_whole operator left.worth right.worth }
    ensures place { result.place ≡ option_or (option_or left.place (first_of (operator_places operator at left.worth right.worth))) right.place }
{
    Judgement {
        worth: worth_of_binary(operator, left.worth, right.worth),
        place: left
            .place
            .or(place_of_binary(operator, at, left.worth, right.worth))
            .or(right.place),
    }
}

/// What an expression is worth, and the first operator in it that leaves the whole numbers.
#[cycle(judged)]
#[tactic(auto, using(crate::proofs::JudgedLemmas::judged_steps))]
pub fn judged(e: &Expr, bindings: &Bindings, table: &Table, worths: &[Worth]) -> Judgement
    ensures worth { result.worth ≡ (judged_of (constants_by table.now.items.now worths.now) e.now (inner_worths table.now.items.now bindings.now)).worth }
    ensures place { result.place ≡ first_of (judged_of (constants_by table.now.items.now worths.now) e.now (inner_worths table.now.items.now bindings.now)).places }
{
    match e {
        Expr::Number { value, .. } => Judgement {
            worth: Worth::Whole(*value),
            place: None,
        },
        Expr::Name(name) => Judgement {
            worth: worth_of(bindings, name.text.as_slice(), table, worths),
            place: None,
        },
        Expr::Call { arguments, .. } => {
            typed(first_of_all(arguments.as_slice(), bindings, table, worths))
        }
        Expr::Access { size, address, .. } => typed(
            judged(size.get(), bindings, table, worths)
                .place
                .or(judged(address.get(), bindings, table, worths).place),
        ),
        Expr::Join { high, low, .. } => typed(
            judged(high.get(), bindings, table, worths)
                .place
                .or(judged(low.get(), bindings, table, worths).place),
        ),
        Expr::Parentheses { inner, .. } => judged(inner.get(), bindings, table, worths),
        Expr::Unary { operand, .. } => typed(judged(operand.get(), bindings, table, worths).place),
        Expr::Binary {
            operator,
            at,
            left,
            right,
        } => binary(
            *operator,
            *at,
            judged(left.get(), bindings, table, worths),
            judged(right.get(), bindings, table, worths),
        ),
        Expr::Cast {
            operand,
            target,
            ..
        } => typed(
            judged(operand.get(), bindings, table, worths)
                .place
                .or(first_of_cast(target, bindings, table, worths)),
        ),
        Expr::Slice {
            operand,
            high,
            low,
            ..
        } => typed(
            judged(operand.get(), bindings, table, worths)
                .place
                .or(judged(high.get(), bindings, table, worths).place)
                .or(judged(low.get(), bindings, table, worths).place),
        ),
        Expr::If {
            condition,
            then,
            otherwise,
            ..
        } => typed(
            judged(condition.get(), bindings, table, worths)
                .place
                .or(judged(then.get(), bindings, table, worths).place)
                .or(judged(otherwise.get(), bindings, table, worths).place),
        ),
        Expr::Let {
            name,
            bound,
            body,
            ..
        } => {
            let bound = judged(bound.get(), bindings, table, worths);
            let within = Bindings::Let {
                name,
                worth: bound.worth,
                outer: &*bindings,
            };
            let body = judged(body.get(), &within, table, worths);
            Judgement {
                worth: body.worth,
                place: bound.place.or(body.place),
            }
        }
    }
}

/// The first place in the arguments of a call.
#[cycle(judged)]
#[tactic(auto, using(vg_names::proofs::FirstLemmas::first_steps))]
fn first_of_all(
    arguments: &[Expr],
    bindings: &Bindings,
    table: &Table,
    worths: &[Worth],
) -> Option<usize>
    ensures { result ≡ first_of (places_of_all (map (judged_of (constants_by table.now.items.now worths.now)) arguments.now) (inner_worths table.now.items.now bindings.now)) }
{
    for argument in arguments {
        if let Some(at) = judged(argument, bindings, table, worths).place {
            return Some(at);
        }
    }
    None
}

/// The first place in the type of a cast.
#[cycle(judged)]
fn first_of_cast(
    target: &TypeExpr<Boxed<Expr>>,
    bindings: &Bindings,
    table: &Table,
    worths: &[Worth],
) -> Option<usize>
    ensures { result ≡ first_of (type_overflows (constants_by table.now.items.now worths.now) target.now (inner_worths table.now.items.now bindings.now)) }
{
    match target {
        TypeExpr::Sized { width, .. } => judged(width.get(), bindings, table, worths).place,
        TypeExpr::Bool { .. } | TypeExpr::Alias(_) => None,
    }
}
