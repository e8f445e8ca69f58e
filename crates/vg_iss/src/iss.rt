ghost use Rattle.std.specs.Prelude.{◌<◌, ◌^◌, IsTrue};
ghost use Rattle.vg_image.specs.State.{are_files};
ghost use Rattle.vg_iss.specs.Kept.{is_memory_free, are_words};

use crate::decoding::decode;
use crate::fetch::word_at;
use crate::ran::Ran;
use crate::registers::{is_zero, zero_files};
use crate::stepped::{Stepped, ended};
use sqlite_items::Items;
use std::alloc::{AllocError, Global};
use vg_bits::{Bits, Width};
use vg_image::{Ending, Image};
use vg_isa::{Instr, Isa, Made, RegId, ResourceId, View, Write, make, next_of};

/// A machine that runs an image of a description.
#[derive(Drop)]
pub struct Iss<'a> {
    isa: &'a Isa,
    image: &'a Image,
    pc: u64,
    /// For each declaration the numbers of its registers.
    registers: Vec<Items<u128>>,
    ghost memory_free: { IsTrue (is_memory_free isa.now) },
    ghost words: { IsTrue (are_words isa.now.word image.now.code) },
    ghost address: { pc < 2 ^ isa.now.pc.width },
    ghost files: { IsTrue (are_files isa.now.regs registers.items) },
}

/// An instruction and its word.
#[derive(Clone, Copy)]
struct Fetched<'a> {
    instr: &'a Instr,
    word: Bits,
}

impl<'a> Iss<'a> {
    ghost use Rattle.std.specs.Prelude.{◌≡◌, ◌<◌, ◌^◌, [], drop, IsTrue, IfOk, IfSome, MatchResult, Some};
    ghost use Rattle.std.specs.List.{filter_map, list_all};
    ghost use Rattle.vg_isa.specs.declared.write_made.Made.{Made as MadeWrite};
    ghost use Rattle.vg_isa.specs.Declaration.{has_register, register_width};
    ghost use Rattle.vg_isa.specs.Accepted.{is_instr};
    ghost use Rattle.vg_isa.specs.Typing.{is_made, is_write};
    ghost use Rattle.vg_isa.specs.Value.{IsNextSet};
    ghost use Rattle.vg_isa.specs.Effect.{made_by, next_pc_of};
    ghost use Rattle.vg_image.specs.Spelling.{IsImage};
    ghost use Rattle.vg_image.specs.State.{IsState, are_files, first_state, reads_of, register_written, resource_written, all_written, state_after};
    ghost use Rattle.vg_image.specs.Step.{step_of, Moved, Over};
    ghost use Rattle.vg_iss.specs.Kept.{is_memory_free, is_register, write_registers};
    ghost use Rattle.std.specs.Option.{option_map, option_map_or};
    ghost use Rattle.vg_image.specs.Run.{behind, ending_of};
    ghost use Rattle.vg_iss.specs.declared.stepped.Stepped.TheVariants as Outcome;
    ghost use Rattle.vg_iss.specs.Simulator.{description_of, image_of, state_of, stepped_of, RunsSame, answer_of, IsRan};

    /// The machine in the first state of the image.
    pub fn load(alloc: Global, isa: &'a Isa, image: &'a Image) -> Result<Iss<'a>, AllocError>
        requires image { IsImage isa.now image.now }
        requires no_data { image.now.bytes ≡ [] }
        requires registers_only { IsTrue (is_memory_free isa.now) }
        ensures state { IfOk result (λ iss. state_of iss ≡ first_state isa.now image.now) }
        ensures description { IfOk result (λ iss. description_of iss ≡ isa.now) }
        ensures image { IfOk result (λ iss. image_of iss ≡ image.now) }
    {
        let registers = zero_files(alloc, isa)?;
        Ok(Iss {
            isa,
            image,
            pc: image.entry,
            registers,
        })
    }

    /// The program counter.
    #[inline(always)]
    pub fn pc(&self) -> Bits
        ensures { result ≡ (reads_of (description_of self.now) (state_of self.now)).pc }
    {
        Bits::of(self.isa.parts().pc.width, u128::from(self.pc))
    }

    /// The address of the instruction that is next.
    pub fn address(&self) -> u64
        ensures value { result ≡ (state_of self.now).pc }
        ensures below { result < 2 ^ (description_of self.now).pc.width }
    {
        self.pc
    }

    /// For each declaration the numbers of its registers.
    pub fn registers(&self) -> &[Items<u128>]
        ensures value { result.now ≡ (state_of self.now).registers }
        ensures files { IsTrue (are_files (description_of self.now).regs result.now) }
    {
        self.registers.as_slice()
    }

    /// What a register reads; a single register has the index 0.
    #[inline(always)]
    pub fn reg(&self, r: RegId, i: u8) -> Bits
        requires { IsTrue (has_register (description_of self.now).regs r.0 i) }
        ensures { result ≡ (reads_of (description_of self.now) (state_of self.now)).reg r.0 i }
    {
        let decl = &self.isa.regs()[r.0 as usize];
        if is_zero(decl, i) {
            return Bits::of(decl.width, 0);
        }
        let numbers = self.registers[r.0 as usize].as_slice();
        Bits::of(decl.width, numbers[i as usize])
    }

    /// The byte of memory at an address.
    pub fn byte(&self, at: u64) -> u8
        ensures { result ≡ (reads_of (description_of self.now) (state_of self.now)).byte at }
    {
        let _ = at;
        0
    }

    /// The least address not below `from` whose byte isn't 0; None where there is none.
    pub fn next_set(&self, from: u64) -> Option<u64>
        ensures { IsNextSet (reads_of (description_of self.now) (state_of self.now)).byte from result }
    {
        let _ = from;
        None
    }

    /// Writes a register.
    #[inline(always)]
    fn set(&mut self, r: RegId, index: u8, value: Bits)
        requires register { IsTrue (has_register (description_of self.old).regs r.0 index) }
        requires width { value.width ≡ register_width (description_of self.old).regs r.0 }
        ensures state { state_of self.new ≡ register_written (description_of self.old) r.0 index value.number (state_of self.old) }
        ensures same { RunsSame self.old self.new }
    {
        let decl = &self.isa.regs()[r.0 as usize];
        if is_zero(decl, index) {
            return;
        }
        let number = value.value();
        let numbers = &mut self.registers[r.0 as usize];
        numbers.set(index as usize, number);
    }

    /// Does a write of a register.
    #[inline(always)]
    fn apply(&mut self, made: Made)
        requires register { IsTrue (is_register made.resource) }
        requires widths { IsTrue (is_made (description_of self.old) made) }
        ensures state { state_of self.new ≡ resource_written (description_of self.old) made.resource made.at made.value (state_of self.old) }
        ensures same { RunsSame self.old self.new }
    {
        let _ = self.isa.parts();
        match made.resource {
            ResourceId::Memory => unreachable!(),
            ResourceId::Reg(r) => match made.at {
                None => self.set(r, 0, made.value),
                Some(at) => self.set(r, at.value() as u8, made.value),
            },
        }
    }

    /// Does a write of a register, where one is made.
    #[inline(always)]
    fn apply_made(&mut self, made: Option<Made>)
        requires register { IfSome made (λ m. IsTrue (is_register m.resource)) }
        requires widths { IfSome made (λ m. IsTrue (is_made (description_of self.old) m)) }
        ensures state { state_of self.new ≡ option_map_or (λ (m : MadeWrite). resource_written (description_of self.old) m.resource m.at m.value (state_of self.old)) made (state_of self.old) }
        ensures same { RunsSame self.old self.new }
    {
        if let Some(made) = made {
            self.apply(made);
        }
    }

    /// Does the writes from the `k`-th on, each of which reads the state before all of them.
    fn write_from(&mut self, writes: &[Write], k: usize, word: Bits)
        requires writes { IsTrue (list_all (is_write (description_of self.old)) writes.now) }
        requires registers { IsTrue (write_registers writes.now) }
        requires word { word.width ≡ (description_of self.old).word }
        ensures state { state_of self.new ≡ all_written (description_of self.old) (filter_map (λ write. made_by (description_of self.old) write word.number (reads_of (description_of self.old) (state_of self.old))) (drop k writes.now)) (state_of self.old) }
        ensures same { RunsSame self.old self.new }
    {
        if k >= writes.len() {
            return;
        }
        let made = make(self.isa, &writes[k], word, &*self);
        if k + 1 == writes.len() {
            self.apply_made(made);
            return;
        }
        self.write_from(writes, k + 1, word);
        self.apply_made(made);
    }

    /// Does an instruction.
    #[inline(always)]
    #[tactic(auto, using(vg_isa::proofs::Kept::writes_typed))]
    fn execute(&mut self, instr: &Instr, word: Bits)
        requires instr { IsTrue (is_instr (description_of self.old) instr.now) }
        requires registers { IsTrue (write_registers instr.now.writes) }
        requires word { word.width ≡ (description_of self.old).word }
        ensures state { state_of self.new ≡ state_after (description_of self.old) instr.now word.number (state_of self.old) }
        ensures same { RunsSame self.old self.new }
    {
        let _ = self.isa.parts();
        let next = next_of(self.isa, instr, word, &*self);
        self.write_from(instr.writes.as_slice(), 0, word);
        self.pc = next.value() as u64;
    }

    /// The instruction at the program counter and its word, or why there is none.
    #[inline(always)]
    fn fetch(&self) -> Result<Fetched<'a>, Ending>
        ensures step { MatchResult result
            (λ fetched. step_of (description_of self.now) (image_of self.now) (state_of self.now) ≡ Moved (state_after (description_of self.now) fetched.instr.now fetched.word.number (state_of self.now)))
            (λ ending. step_of (description_of self.now) (image_of self.now) (state_of self.now) ≡ Over ending) }
        ensures instr { IfOk result (λ fetched. IsTrue (is_instr (description_of self.now) fetched.instr.now)) }
        ensures registers { IfOk result (λ fetched. IsTrue (write_registers fetched.instr.now.writes)) }
        ensures word { IfOk result (λ fetched. fetched.word.width ≡ (description_of self.now).word) }
    {
        if self.pc == self.image.stop {
            return Err(Ending::End);
        }
        if self.pc == self.image.full {
            return Err(Ending::StackEnd);
        }
        match word_at(self.isa, self.image, self.pc) {
            None => Err(Ending::OutOfCode),
            Some(word) => match decode(self.isa, word) {
                None => Err(Ending::Illegal),
                Some(instr) => Ok(Fetched { instr, word }),
            },
        }
    }

    /// Does one step. The state changes only where it moves.
    #[inline(always)]
    pub fn step(&mut self) -> Stepped
        ensures answer { result ≡ answer_of (step_of (description_of self.old) (image_of self.old) (state_of self.old)) }
        ensures state { state_of self.new ≡ behind (step_of (description_of self.old) (image_of self.old) (state_of self.old)) (state_of self.old) }
        ensures same { RunsSame self.old self.new }
    {
        match self.fetch() {
            Err(ending) => ended(ending),
            Ok(fetched) => {
                self.execute(fetched.instr, fetched.word);
                Stepped::Moved
            }
        }
    }

    /// Why no step is done in its state; None where one is.
    pub fn ending(&self) -> Option<Ending>
        ensures { result ≡ ending_of (step_of (description_of self.now) (image_of self.now) (state_of self.now)) }
    {
        match self.fetch() {
            Err(ending) => Some(ending),
            Ok(_) => None,
        }
    }

    /// Why no further step is done; None where one is.
    fn end(&self) -> Option<Stepped>
        ensures { result ≡ option_map stepped_of (ending_of (step_of (description_of self.now) (image_of self.now) (state_of self.now))) }
    {
        match self.fetch() {
            Err(ending) => Some(ended(ending)),
            Ok(_) => None,
        }
    }

    /// Does at most `n` steps, up to the first that doesn't move.
    pub fn run(&mut self, n: u64) -> Ran
        ensures run { IsRan (description_of self.old) (image_of self.old) n (state_of self.old) (state_of self.new) result }
        ensures memory { result.end ≡ Some Outcome.OutOfMemory → ⊥ }
        ensures same { RunsSame self.old self.new }
    {
        let mut done = 0;
        while done < n {
            match self.step() {
                Stepped::Moved => done += 1,
                stepped => {
                    return Ran {
                        end: Some(stepped),
                        done,
                    };
                }
            }
        }
        Ran {
            end: self.end(),
            done,
        }
    }
}

impl View for Iss<'_> {
    ghost use Rattle.vg_image.specs.State.{reads_of};
    ghost use Rattle.vg_iss.specs.declared.stepped.Stepped.TheVariants as Outcome;
    ghost use Rattle.vg_iss.specs.Simulator.{description_of, state_of};

    ghost reads = { λ iss. reads_of (description_of iss) (state_of iss) };

    ghost registers = { λ iss. (description_of iss).regs };

    #[inline(always)]
    fn pc(&self) -> Bits {
        Iss::pc(self)
    }

    #[inline(always)]
    fn reg(&self, r: RegId, i: u8) -> Bits {
        Iss::reg(self, r, i)
    }

    /// Nothing is stored.
    #[inline(always)]
    fn mem(&self, _at: Bits, bytes: u8) -> Bits {
        Bits::of(Width::of(8 * bytes), 0)
    }
}
