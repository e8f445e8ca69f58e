//! Whether what a behaviour reads and writes lacks an act.
ghost use Rattle.std.specs.Prelude.{◌≡◌, [], ◌∷◌, flat_map};
ghost use Rattle.std.specs.Option.{option_map};
ghost use Rattle.vg_type.specs.Setting.{setting_in};
ghost use Rattle.vg_stage.specs.StageLack.{behaviour_lacks as behaviour_lacks_of, some_lack};
ghost use Rattle.vg_stage.specs.StageOrder.{effect_reads, effect_writes, else_numbers, head_reads, tree_reads};
ghost use Rattle.vg_tree.specs.Written.{target_number};

use crate::stage_lack::Lacking;
use sqlite_items::Boxed;
use vg_inline::{Effect, Head, Target, Tree};

/// Whether what a node reads lacks an act.
fn head_lacks(head: Head, lacking: &Lacking) -> bool
    ensures { result ≡ some_lack lacking.now.flags (head_reads (setting_in lacking.now.context.now) head) }
{
    match head {
        Head::Resource { item } | Head::Indexed { item, .. } => lacking.has(item),
        Head::Access { .. } => lacking.has(lacking.memory),
        _ => false,
    }
}

/// Whether something that a tree reads lacks an act.
#[cycle(tree)]
#[tactic(auto, using(crate::proofs::StageUses::lack_steps))]
fn tree_lacks(tree: &Tree, lacking: &Lacking) -> bool
    ensures { result ≡ some_lack lacking.now.flags (tree_reads (setting_in lacking.now.context.now) tree.now) }
{
    head_lacks(tree.head, lacking) || trees_lack(tree.parts.as_slice(), lacking)
}

#[cycle(tree)]
fn trees_lack(trees: &[Tree], lacking: &Lacking) -> bool
    ensures { result ≡ some_lack lacking.now.flags (flat_map (tree_reads (setting_in lacking.now.context.now)) trees.now) }
{
    for tree in trees {
        if tree_lacks(tree, lacking) {
            return true;
        }
    }
    false
}

/// Whether something that a statement reads lacks an act.
#[cycle(reads)]
#[tactic(auto, using(crate::proofs::StageUses::read_steps))]
fn reads_lack(effect: &Effect, lacking: &Lacking) -> bool
    ensures { result ≡ some_lack lacking.now.flags (effect_reads (setting_in lacking.now.context.now) effect.now) }
{
    match effect {
        Effect::Block { effects } => all_reads_lack(effects.as_slice(), lacking),
        Effect::If {
            condition,
            then,
            otherwise,
            ..
        } => {
            tree_lacks(condition, lacking)
                || reads_lack(then.get(), lacking)
                || else_reads_lack(otherwise, lacking)
        }
        Effect::Assign { parts, value, .. } => {
            trees_lack(parts.as_slice(), lacking) || tree_lacks(value, lacking)
        }
    }
}

#[cycle(reads)]
fn else_reads_lack(otherwise: &Option<Boxed<Effect>>, lacking: &Lacking) -> bool
    ensures { result ≡ some_lack lacking.now.flags (else_numbers (option_map (effect_reads (setting_in lacking.now.context.now)) otherwise.now)) }
{
    match otherwise {
        None => false,
        Some(other) => reads_lack(other.get(), lacking),
    }
}

#[cycle(reads)]
fn all_reads_lack(effects: &[Effect], lacking: &Lacking) -> bool
    ensures { result ≡ some_lack lacking.now.flags (flat_map (effect_reads (setting_in lacking.now.context.now)) effects.now) }
{
    for effect in effects {
        if reads_lack(effect, lacking) {
            return true;
        }
    }
    false
}

/// Whether what is written lacks an act.
fn target_lacks(target: Target, lacking: &Lacking) -> bool
    ensures { result ≡ some_lack lacking.now.flags (target_number (setting_in lacking.now.context.now) target ∷ []) }
{
    match target {
        Target::Resource { item, .. } | Target::Indexed { item, .. } => lacking.has(item),
        Target::Access { .. } => lacking.has(lacking.memory),
    }
}

/// Whether something that a statement writes lacks an act.
#[cycle(writes)]
#[tactic(auto, using(crate::proofs::StageUses::write_steps))]
fn writes_lack(effect: &Effect, lacking: &Lacking) -> bool
    ensures { result ≡ some_lack lacking.now.flags (effect_writes (setting_in lacking.now.context.now) effect.now) }
{
    match effect {
        Effect::Block { effects } => all_writes_lack(effects.as_slice(), lacking),
        Effect::If {
            then,
            otherwise,
            ..
        } => writes_lack(then.get(), lacking) || else_writes_lack(otherwise, lacking),
        Effect::Assign { target, .. } => target_lacks(*target, lacking),
    }
}

#[cycle(writes)]
fn else_writes_lack(otherwise: &Option<Boxed<Effect>>, lacking: &Lacking) -> bool
    ensures { result ≡ some_lack lacking.now.flags (else_numbers (option_map (effect_writes (setting_in lacking.now.context.now)) otherwise.now)) }
{
    match otherwise {
        None => false,
        Some(other) => writes_lack(other.get(), lacking),
    }
}

#[cycle(writes)]
fn all_writes_lack(effects: &[Effect], lacking: &Lacking) -> bool
    ensures { result ≡ some_lack lacking.now.flags (flat_map (effect_writes (setting_in lacking.now.context.now)) effects.now) }
{
    for effect in effects {
        if writes_lack(effect, lacking) {
            return true;
        }
    }
    false
}

/// Whether something that a behaviour reads lacks a `read`, or something that it writes a `write`.
pub(crate) fn behaviour_lacks(effect: &Option<Effect>, reads: &Lacking, writes: &Lacking) -> bool
    requires { writes.now.context.now ≡ reads.now.context.now }
    ensures { result ≡ behaviour_lacks_of (setting_in reads.now.context.now) reads.now.flags writes.now.flags effect.now }
{
    match effect {
        None => false,
        Some(effect) => reads_lack(effect, reads) || writes_lack(effect, writes),
    }
}
