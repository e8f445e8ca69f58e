#![tactic(auto, using(crate::proofs::NameLemmas::names))]

ghost use Rattle.std.specs.Prelude.{◌≡◌, [], ◌∷◌, ◌++◌, IfOk, OnOk};
ghost use Rattle.vg_names.specs.Uses.{expression_names, outer, type_expr_names, uses_of, parameter_names};
ghost use Rattle.vg_names.specs.Numbers.{number_named, with_numbers, graph_of};
ghost use Rattle.vg_names.specs.Scoped.{HasNames, inner_of, parameter_texts};

use crate::item_scope::ItemScope;
use crate::table::Table;
use indexmap::IndexSet;
use sqlite_items::{Boxed, Items};
use std::alloc::{AllocError, Global};
use vg_ast::{Expr, Item, Name, Parameter, TypeExpr};

/// Notes the number of the item that a name stands for, where no inner name hides it.
fn name_uses(
    name: &Name,
    scope: &ItemScope,
    bound: &[&[char]],
    uses: &mut Vec<usize>,
) -> Result<(), AllocError>
    requires { HasNames scope.now.hidden.now scope.now.parameters.now }
    ensures { OnOk result (uses.new.items ≡ with_numbers (number_named scope.now.table.now.items.now) uses.old.items (outer name.now (inner_of bound.now (parameter_texts scope.now.parameters.now)))) }
{
    let text = name.text.as_slice();
    if bound.contains(&text) || scope.hidden.contains(text) {
        return Ok(());
    }
    if let Some(number) = scope.table.number(text) {
        uses.push(number)?;
    }
    Ok(())
}

/// Notes the numbers of the items whose names an expression uses, in the order of the text.
#[tactic(auto, using(crate::proofs::NameLemmas::expressions))]
fn expression_uses<'a>(
    expression: &'a Expr,
    scope: &ItemScope,
    bound: &mut Vec<&'a [char]>,
    uses: &mut Vec<usize>,
) -> Result<(), AllocError>
    requires { HasNames scope.now.hidden.now scope.now.parameters.now }
    ensures bound { OnOk result (bound.new.items ≡ bound.old.items) }
    ensures uses { OnOk result (uses.new.items ≡ with_numbers (number_named scope.now.table.now.items.now) uses.old.items (expression_names expression.now (inner_of bound.old.items (parameter_texts scope.now.parameters.now)))) }
{
    match expression {
        Expr::Number { .. } => Ok(()),
        Expr::Name(name) => name_uses(name, scope, bound.as_slice(), uses),
        Expr::Call { name, arguments } => {
            name_uses(name, scope, bound.as_slice(), uses)?;
            for argument in arguments.as_slice() {
                expression_uses(argument, scope, bound, uses)?;
            }
            Ok(())
        }
        Expr::Access {
            memory,
            size,
            address,
            ..
        } => {
            name_uses(memory, scope, bound.as_slice(), uses)?;
            expression_uses(size.get(), scope, bound, uses)?;
            expression_uses(address.get(), scope, bound, uses)
        }
        Expr::Join { high, low, .. } => {
            expression_uses(high.get(), scope, bound, uses)?;
            expression_uses(low.get(), scope, bound, uses)
        }
        Expr::Parentheses { inner, .. } => expression_uses(inner.get(), scope, bound, uses),
        Expr::Unary { operand, .. } => expression_uses(operand.get(), scope, bound, uses),
        Expr::Binary { left, right, .. } => {
            expression_uses(left.get(), scope, bound, uses)?;
            expression_uses(right.get(), scope, bound, uses)
        }
        Expr::Cast {
            operand,
            target,
            ..
        } => {
            expression_uses(operand.get(), scope, bound, uses)?;
            match target {
                TypeExpr::Sized { width, .. } => expression_uses(width.get(), scope, bound, uses),
                TypeExpr::Bool { .. } => Ok(()),
                TypeExpr::Alias(name) => name_uses(name, scope, bound.as_slice(), uses),
            }
        }
        Expr::Slice {
            operand,
            high,
            low,
            ..
        } => {
            expression_uses(operand.get(), scope, bound, uses)?;
            expression_uses(high.get(), scope, bound, uses)?;
            expression_uses(low.get(), scope, bound, uses)
        }
        Expr::If {
            condition,
            then,
            otherwise,
            ..
        } => {
            expression_uses(condition.get(), scope, bound, uses)?;
            expression_uses(then.get(), scope, bound, uses)?;
            expression_uses(otherwise.get(), scope, bound, uses)
        }
        Expr::Let {
            name,
            bound: value,
            body,
            ..
        } => {
            expression_uses(value.get(), scope, bound, uses)?;
            bound.push(name.text.as_slice())?;
            expression_uses(body.get(), scope, bound, uses)?;
            bound.pop();
            Ok(())
        }
    }
}

/// Notes the numbers of the items whose names a type uses.
fn type_uses<'a>(
    declared: &'a TypeExpr<Boxed<Expr>>,
    scope: &ItemScope,
    bound: &mut Vec<&'a [char]>,
    uses: &mut Vec<usize>,
) -> Result<(), AllocError>
    requires { HasNames scope.now.hidden.now scope.now.parameters.now }
    ensures bound { OnOk result (bound.new.items ≡ bound.old.items) }
    ensures uses { OnOk result (uses.new.items ≡ with_numbers (number_named scope.now.table.now.items.now) uses.old.items (type_expr_names declared.now (inner_of bound.old.items (parameter_texts scope.now.parameters.now)))) }
{
    match declared {
        TypeExpr::Sized { width, .. } => expression_uses(width.get(), scope, bound, uses),
        TypeExpr::Bool { .. } => Ok(()),
        TypeExpr::Alias(name) => name_uses(name, scope, bound.as_slice(), uses),
    }
}

/// The names of parameters.
fn names_of_parameters<'a>(
    alloc: Global,
    parameters: &'a [Parameter],
) -> Result<IndexSet<&'a [char]>, AllocError>
    ensures { IfOk result (λ names. HasNames names parameters.now) }
{
    let mut names = IndexSet::new(alloc);
    for parameter in parameters {
        names.insert(parameter.name.text.as_slice())?;
    }
    Ok(names)
}

/// Notes the numbers of the items whose names the types of parameters use.
fn parameter_uses<'a>(
    parameters: &'a [Parameter],
    scope: &ItemScope,
    bound: &mut Vec<&'a [char]>,
    uses: &mut Vec<usize>,
) -> Result<(), AllocError>
    requires names { HasNames scope.now.hidden.now scope.now.parameters.now }
    requires outside { inner_of bound.old.items (parameter_texts scope.now.parameters.now) ≡ [] }
    ensures bound { OnOk result (bound.new.items ≡ bound.old.items) }
    ensures uses { OnOk result (uses.new.items ≡ with_numbers (number_named scope.now.table.now.items.now) uses.old.items (parameter_names parameters.now)) }
{
    for parameter in parameters {
        type_uses(&parameter.declared, scope, bound, uses)?;
    }
    Ok(())
}

/// Notes the numbers of the items whose names the body of a function uses.
fn body_uses<'a>(
    alloc: Global,
    body: &'a Expr,
    parameters: &'a [Parameter],
    table: &Table<'a>,
    uses: &mut Vec<usize>,
) -> Result<(), AllocError>
    ensures { OnOk result (uses.new.items ≡ with_numbers (number_named table.now.items.now) uses.old.items (expression_names body.now (parameter_texts parameters.now))) }
{
    let hidden = names_of_parameters(alloc, parameters)?;
    let scope = ItemScope {
        table,
        parameters,
        hidden: &hidden,
    };
    let mut bound = Vec::new(alloc);
    expression_uses(body, &scope, &mut bound, uses)
}

/// Notes the numbers of the items whose names an item uses.
fn item_uses<'a>(
    alloc: Global,
    item: &'a Item,
    table: &Table<'a>,
    uses: &mut Vec<usize>,
) -> Result<(), AllocError>
    ensures { OnOk result (uses.new.items ≡ with_numbers (number_named table.now.items.now) uses.old.items (uses_of item.now)) }
{
    let hidden = names_of_parameters(alloc, &[])?;
    let mut bound = Vec::new(alloc);
    let outside = ItemScope {
        table,
        parameters: &[],
        hidden: &hidden,
    };
    match item {
        Item::Constant { value, .. } => expression_uses(value.get(), &outside, &mut bound, uses),
        Item::Using { meaning, .. } => type_uses(meaning, &outside, &mut bound, uses),
        Item::Function {
            parameters,
            result: returned,
            body,
            ..
        } => {
            parameter_uses(parameters.as_slice(), &outside, &mut bound, uses)?;
            type_uses(returned, &outside, &mut bound, uses)?;
            body_uses(alloc, body.get(), parameters.as_slice(), table, uses)
        }
        _ => Ok(()),
    }
}

/// For each item the numbers of the items whose names it uses.
pub fn uses_of_items(alloc: Global, items: &[Item]) -> Result<Vec<Items<usize>>, AllocError>
    ensures { IfOk result (λ graph. graph.items ≡ graph_of items.now) }
{
    let table = Table::new(alloc, items)?;
    let mut graph = Vec::new(alloc);
    for item in items {
        let mut uses = Vec::new(alloc);
        item_uses(alloc, item, &table, &mut uses)?;
        graph.push(Items::from_vec(uses))?;
    }
    Ok(graph)
}
