//! The rules of the application binary interface.

ghost use Rattle.std.specs.Prelude.{◌≡◌, ◌++◌, ◌^◌, ◌&&◌, ◌∷◌, [], not, nat_eq, nat_lt, map, flat_map, OnOk, IfOk, true, false};
ghost use Rattle.std.specs.List.{list_all, list_any};
ghost use Rattle.vg_isa.specs.Same.{all_differ};
ghost use Rattle.vg_names.specs.First.{first_of};
ghost use Rattle.vg_type.specs.Setting.{setting_in};
ghost use Rattle.vg_declare.specs.AbiPart.{are_below, bases_by, bases_of};
ghost use Rattle.vg_declare.specs.AbiRole.{abi_breaks, are_complete as are_all_there, are_of_one_file, are_enough as are_so_many, are_kept as keep_all, broken_roles, is_aligned as is_at_multiple, is_good, is_multiple as is_multiple_of, is_rising as rises, layout_of, registers_of, role_number as number_of_role, role_start as start_of_role, stand_once as stand_apart, word_bytes as bytes_of_word};

use crate::abi_part::Bases;
use crate::abi_register::{are_good, number_of, registers_differ};
use std::alloc::{AllocError, Global};
use vg_ast::{Abi, Role};
use vg_tree::width_or;
use vg_type::Setting;

/// The nine roles, by a number of each.
fn role_number(role: &Role) -> usize
    ensures { result ≡ number_of_role role.now }
{
    match role {
        Role::StackPointer { .. } => 0,
        Role::ReturnAddress { .. } => 1,
        Role::ReturnValue { .. } => 2,
        Role::Arguments { .. } => 3,
        Role::Temporaries { .. } => 4,
        Role::Saved { .. } => 5,
        Role::Code { .. } => 6,
        Role::Data { .. } => 7,
        Role::Stack { .. } => 8,
    }
}

fn role_start(role: &Role) -> usize
    ensures { result ≡ start_of_role role.now }
{
    match role {
        Role::StackPointer { at, .. }
        | Role::ReturnAddress { at, .. }
        | Role::ReturnValue { at, .. }
        | Role::Arguments { at, .. }
        | Role::Temporaries { at, .. }
        | Role::Saved { at, .. }
        | Role::Code { at, .. }
        | Role::Data { at, .. }
        | Role::Stack { at, .. } => *at,
    }
}

/// Whether a role of this number stands among these.
fn stands(number: usize, roles: &[Role]) -> bool
    ensures { result ≡ list_any (nat_eq number) (map number_of_role roles.now) }
{
    for role in roles {
        if number == role_number(role) {
            return true;
        }
    }
    false
}

/// Whether no role stands twice.
fn stand_once(roles: &[Role]) -> bool
    ensures { result ≡ stand_apart roles.now }
{
    for (i, role) in roles.iter().enumerate() {
        if stands(role_number(role), &roles[i + 1..]) {
            return false;
        }
    }
    true
}

/// Whether all nine roles stand there.
#[tactic(auto, using(crate::proofs::AbiLemmas::lacking, crate::proofs::AbiLemmas::none_lacking))]
fn are_complete(roles: &[Role]) -> bool
    ensures { result ≡ are_all_there roles.now }
{
    for number in 0..9 {
        if !stands(number, roles) {
            return false;
        }
    }
    true
}

/// Whether a role has as many registers as it must have.
fn are_enough(role: &Role) -> bool
    ensures { result ≡ are_so_many role.now }
{
    match role {
        Role::Temporaries { registers, .. } => registers.len() >= 3,
        Role::Saved { registers, .. } => registers.len() >= 1,
        _ => true,
    }
}

fn all_enough(roles: &[Role]) -> bool
    ensures { result ≡ list_all are_so_many roles.now }
{
    for role in roles {
        if !are_enough(role) {
            return false;
        }
    }
    true
}

/// Whether a number is a multiple of another.
fn is_multiple(of: u128, number: u128) -> bool
    ensures { result ≡ is_multiple_of of number }
{
    if of == 0 {
        return number == 0;
    }
    number % of == 0
}

/// How many bytes a word has.
fn word_bytes(setting: &Setting) -> u128
    ensures { result ≡ bytes_of_word (setting_in setting.now.context.now) }
{
    width_or(setting.word) / 8
}

/// Whether the ends of memory that a role names are the multiples that they must be.
fn is_aligned(role: &Role, setting: &Setting) -> bool
    ensures { result ≡ is_at_multiple (setting_in setting.now.context.now) role.now }
{
    match role {
        Role::Code { base, .. } => is_multiple(word_bytes(setting), number_of(base.get(), setting)),
        Role::Data { base, .. } => is_multiple(16, number_of(base.get(), setting)),
        Role::Stack { low, high, .. } => {
            is_multiple(16, number_of(low.get(), setting))
                && is_multiple(16, number_of(high.get(), setting))
        }
        _ => true,
    }
}

fn all_aligned(roles: &[Role], setting: &Setting) -> bool
    ensures { result ≡ list_all (is_at_multiple (setting_in setting.now.context.now)) roles.now }
{
    for role in roles {
        if !is_aligned(role, setting) {
            return false;
        }
    }
    true
}

/// Puts the ends of memory that a role names behind these.
fn push_role(
    all: &mut Vec<u128>,
    role: &Role,
    which: Bases,
    setting: &Setting,
) -> Result<(), AllocError>
    ensures { OnOk result (all.new.items ≡ all.old.items ++ bases_by (setting_in setting.now.context.now) which role.now) }
{
    match (which, role) {
        (Bases::Code, Role::Code { base, .. }) | (Bases::Data, Role::Data { base, .. }) => {
            all.push(number_of(base.get(), setting))?;
            Ok(())
        }
        (Bases::Stack, Role::Stack { low, high, .. }) => {
            all.push(number_of(low.get(), setting))?;
            all.push(number_of(high.get(), setting))?;
            Ok(())
        }
        _ => Ok(()),
    }
}

/// Puts the ends of memory that roles name behind these.
fn push_roles(
    all: &mut Vec<u128>,
    roles: &[Role],
    which: Bases,
    setting: &Setting,
) -> Result<(), AllocError>
    ensures { OnOk result (all.new.items ≡ all.old.items ++ flat_map (bases_by (setting_in setting.now.context.now) which) roles.now) }
{
    for role in roles {
        push_role(all, role, which, setting)?;
    }
    Ok(())
}

/// The ends of memory that roles name, in the order in which they must lie.
fn bases_of(alloc: Global, roles: &[Role], setting: &Setting) -> Result<Vec<u128>, AllocError>
    ensures { IfOk result (λ all. all.items ≡ bases_of (setting_in setting.now.context.now) roles.now) }
{
    let mut all = Vec::new(alloc);
    push_roles(&mut all, roles, Bases::Code, setting)?;
    push_roles(&mut all, roles, Bases::Data, setting)?;
    push_roles(&mut all, roles, Bases::Stack, setting)?;
    Ok(all)
}

fn is_below_all(number: u128, numbers: &[u128]) -> bool
    ensures { result ≡ list_all (nat_lt number) numbers.now }
{
    for other in numbers {
        if number >= *other {
            return false;
        }
    }
    true
}

/// Whether each number is below all behind it.
fn is_rising(numbers: &[u128]) -> bool
    ensures { result ≡ rises numbers.now }
{
    for (i, number) in numbers.iter().enumerate() {
        if !is_below_all(*number, &numbers[i + 1..]) {
            return false;
        }
    }
    true
}

/// Whether a number is below 2 to a width.
#[tactic(auto, using(vg_type::proofs::WidthLemmas::width_steps))]
fn is_below(number: u128, width: u128) -> bool
    ensures { result ≡ nat_lt number (2 ^ width) }
{
    if width >= 128 {
        return true;
    }
    number >> width == 0
}

fn are_below(numbers: &[u128], width: u128) -> bool
    ensures { result ≡ are_below width numbers.now }
{
    for number in numbers {
        if !is_below(*number, width) {
            return false;
        }
    }
    true
}

/// Whether numbers rise, and are below 2 to a width.
fn is_in_order(numbers: &[u128], width: u128) -> bool
    ensures { result ≡ (rises numbers.now && are_below width numbers.now) }
{
    is_rising(numbers) && are_below(numbers, width)
}

/// Whether the ends of memory that roles name lie in their order.
#[tactic(auto, using(crate::proofs::AbiLemmas::laid_out))]
fn is_laid_out(alloc: Global, roles: &[Role], setting: &Setting) -> Result<bool, AllocError>
    ensures { IfOk result (λ laid. laid ≡ rises (layout_of (setting_in setting.now.context.now) roles.now)) }
{
    let bases = bases_of(alloc, roles, setting)?;
    Ok(is_in_order(&bases, width_or(setting.width)))
}

/// Whether roles keep the rules for which nothing is kept in mind.
fn are_plainly_kept(roles: &[Role], setting: &Setting) -> bool
    ensures { let s = setting_in setting.now.context.now in
        result ≡ (stand_apart roles.now && ((list_all (is_good s) (flat_map registers_of roles.now) && are_of_one_file (flat_map registers_of roles.now)) && (list_all are_so_many roles.now && list_all (is_at_multiple s) roles.now))) }
{
    stand_once(roles)
        && (are_good(roles, setting) && (all_enough(roles) && all_aligned(roles, setting)))
}

/// Whether roles keep all rules among them.
#[tactic(auto, using(crate::proofs::AbiLemmas::kept_steps))]
fn are_kept(alloc: Global, roles: &[Role], setting: &Setting) -> Result<bool, AllocError>
    ensures { IfOk result (λ kept. kept ≡ keep_all (setting_in setting.now.context.now) roles.now) }
{
    if !are_plainly_kept(roles, setting) {
        return Ok(false);
    }
    if !is_laid_out(alloc, roles, setting)? {
        return Ok(false);
    }
    registers_differ(alloc, roles, setting)
}

/// The first role that, with those in front of it, breaks a rule. Those in front keep the rules, so they are nine at
/// most, and none is asked more than ten times.
#[tactic(auto, using(crate::proofs::AbiLemmas::role_steps))]
fn first_broken(
    alloc: Global,
    roles: &[Role],
    setting: &Setting,
) -> Result<Option<usize>, AllocError>
    ensures { IfOk result (λ found. found ≡ first_of (broken_roles (setting_in setting.now.context.now) [] roles.now)) }
{
    for (i, role) in roles.iter().enumerate() {
        if !are_kept(alloc, &roles[..i + 1], setting)? {
            return Ok(Some(role_start(role)));
        }
    }
    Ok(None)
}

/// The first role that breaks a rule of the binary interface with those in front of it, or the `}` of the part where a
/// role is lacking.
pub fn first_abi_break(
    alloc: Global,
    abi: &Option<Abi>,
    setting: &Setting,
) -> Result<Option<usize>, AllocError>
    ensures { IfOk result (λ found. found ≡ first_of (abi_breaks (setting_in setting.now.context.now) abi.now)) }
{
    match abi {
        None => Ok(None),
        Some(abi) => {
            let roles = abi.roles.as_slice();
            if let Some(at) = first_broken(alloc, roles, setting)? {
                return Ok(Some(at));
            }
            if are_complete(roles) {
                Ok(None)
            } else {
                Ok(Some(abi.close))
            }
        }
    }
}
