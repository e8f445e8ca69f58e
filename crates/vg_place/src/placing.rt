ghost use Rattle.std.specs.Prelude.{◌≡◌, ◌≤◌, ◌<◌, ◌+◌, ◌-◌, length, map, ◌⊎◌, ℕ, IfOk, IfErr, IsTrue, is_some, Some};
ghost use Rattle.std.specs.Option.{option_map};
ghost use Rattle.vg_isa.specs.declared.abi.Micro.{Micro};
ghost use Rattle.vg_place.specs.declared.place_fault.PlaceFault.TheVariants.{Unplaced, OutOfMemory};
ghost use Rattle.vg_place.specs.Unplaced.{first_late, IsInOrder, IsFirst};
ghost use Rattle.std.specs.List.{range_with_len};
ghost use Rattle.vg_isa.specs.declared.ids.ResourceId.TheVariants.{Reg};
ghost use Rattle.vg_place.specs.Stage.{access_of, stages_in};
ghost use Rattle.vg_place.specs.Planned.{write_plan, next_plan, instr_plan, plan_of};

use crate::acts::act_stage;
use crate::late::{Found, first_of, late_in};
use crate::place_fault::PlaceFault;
use crate::plan::{InstrPlan, NextPlan, Plan, WritePlan};
use crate::stage_table::{Access, Stages};
use crate::timing::timed;
use sqlite_items::Items;
use std::alloc::{AllocError, Global};
use vg_isa::{Act, Instr, InstrId, Isa, Micro, RegId, ResourceId, Write};

/// The stages of a resource.
fn access(micro: &Micro, r: ResourceId) -> Access
    requires some { 1 ≤ length micro.now.stages }
    requires few { length micro.now.stages ≤ 16 }
    ensures { result ≡ access_of micro.now r }
{
    let last = micro.stages.len() - 1;
    Access {
        read: act_stage(micro, Act::Read(r), 0),
        write: act_stage(micro, Act::Write(r), last as u8),
    }
}

/// The stages of so many registers and register files.
fn registers(alloc: Global, micro: &Micro, count: usize) -> Result<Vec<Access>, AllocError>
    requires some { 1 ≤ length micro.now.stages }
    requires few { length micro.now.stages ≤ 16 }
    requires count { count ≤ 16 }
    ensures { IfOk result (λ v. v.items ≡ map (λ k. access_of micro.now (Reg (record { 0 = k }))) (range_with_len 0 count)) }
{
    (0..count)
        .map(|k| access(micro, ResourceId::Reg(RegId(k as u32))))
        .collect(alloc)
}

/// The stages of the parts of a write.
fn write_plan(stages: &Stages, w: &Write) -> WritePlan
    ensures { result ≡ write_plan stages.now w.now }
{
    let at = match &w.at {
        None => 0,
        Some(at) => timed(stages, at).stage,
    };
    WritePlan {
        guard: timed(stages, &w.guard).stage,
        at,
        value: timed(stages, &w.value).stage,
    }
}

/// The stages of the parts of writes.
fn write_plans(
    alloc: Global,
    stages: &Stages,
    writes: &[Write],
) -> Result<Vec<WritePlan>, AllocError>
    ensures { IfOk result (λ v. v.items ≡ map (write_plan stages.now) writes.now) }
{
    writes.iter().map(|w| write_plan(stages, w)).collect(alloc)
}

/// The stages of the parts of the next program counter.
fn next_plan(stages: &Stages, instr: &Instr) -> Option<NextPlan>
    ensures { result ≡ option_map (next_plan stages.now) instr.now.next }
{
    match &instr.next {
        None => None,
        Some((guard, value)) => Some(NextPlan {
            guard: timed(stages, guard).stage,
            value: timed(stages, value).stage,
        }),
    }
}

/// The stages of the parts of an instruction.
fn instr_plan(alloc: Global, stages: &Stages, instr: &Instr) -> Result<InstrPlan, AllocError>
    ensures { IfOk result (λ plan. plan ≡ instr_plan stages.now instr.now) }
{
    let writes = write_plans(alloc, stages, instr.writes.as_slice())?;
    Ok(InstrPlan {
        writes: Items::from_vec(writes),
        next: next_plan(stages, instr),
    })
}

/// The stages of the parts of instructions.
fn instr_plans(
    alloc: Global,
    stages: &Stages,
    instrs: &[Instr],
) -> Result<Vec<InstrPlan>, AllocError>
    ensures { IfOk result (λ v. v.items ≡ map (instr_plan stages.now) instrs.now) }
{
    let mut plans = Vec::new(alloc);
    for instr in instrs {
        plans.push(instr_plan(alloc, stages, instr)?)?;
    }
    Ok(plans)
}

/// The part that is told of instructions, where one is ready later than the stage that needs it.
fn first_late(stages: &Stages, instrs: &[Instr]) -> Option<Found>
    ensures { result ≡ first_late stages.now instrs.now }
{
    let mut best: Option<Found> = None;
    for (k, instr) in instrs.iter().enumerate() {
        best = first_of(best, k, late_in(stages, instr));
    }
    best
}

/// The stages of a micro architecture.
fn stages_in(alloc: Global, isa: &Isa, micro: &Micro) -> Result<Stages, AllocError>
    requires some { 1 ≤ length micro.now.stages }
    requires few { length micro.now.stages ≤ 16 }
    requires registers { length isa.now.regs ≤ 16 }
    ensures { IfOk result (λ stages. stages ≡ stages_in isa.now micro.now) }
{
    let registers = registers(alloc, micro, isa.regs().len())?;
    Ok(Stages {
        count: micro.stages.len() as u8,
        compute: act_stage(micro, Act::Compute, 0),
        resolve: act_stage(micro, Act::Resolve, 0),
        memory: access(micro, ResourceId::Memory),
        registers: Items::from_vec(registers),
    })
}

/// The plan of a description, which has a micro architecture.
///
/// `Unplaced` comes exactly where a part of an instruction is ready later than the stage that needs it. It tells
/// the one that stands first in the text; where several instructions have one at the same place, that of the first
/// instruction, and of several at one place the one that is needed first.
pub fn stages(alloc: Global, isa: &Isa) -> Result<Plan, PlaceFault>
    requires { IsTrue (is_some isa.now.micro) }
    ensures plan { (micro : Micro) → isa.now.micro ≡ Some micro → IfOk result (λ plan. (plan ≡ plan_of isa.now micro) × IsInOrder isa.now micro) }
    ensures fault { (micro : Micro) → isa.now.micro ≡ Some micro → IfErr result (λ e. (e ≡ OutOfMemory) ⊎ ((k : ℕ) × (at : ℕ) × (stage : ℕ) × (e ≡ Unplaced (record { 0 = k }) at stage) × IsFirst (stages_in isa.now micro) isa.now.instrs k at stage)) }
{
    let _ = isa.parts();
    let micro = match isa.micro() {
        None => unreachable!(),
        Some(micro) => micro,
    };
    let stages = stages_in(alloc, isa, micro)?;
    match first_late(&stages, isa.instrs()) {
        Some(found) => Err(PlaceFault::Unplaced {
            instr: InstrId(found.instr as u32),
            at: found.late.at,
            stage: found.late.stage,
        }),
        None => {
            let instrs = instr_plans(alloc, &stages, isa.instrs())?;
            Ok(Plan {
                stages,
                instrs: Items::from_vec(instrs),
            })
        }
    }
}
