use crate::Text;
use crate::abi::{Abi, Micro};
use crate::declaration::{PcDecl, RegDecl};
use crate::format::Format;
use crate::ids::InstrId;
use crate::instr::Instr;
use sqlite_items::Items;
use std::marker::Model;
use vg_bits::Width;

/// The parts of a description, in the order of its text.
#[derive(Drop)]
pub struct Parts {
    pub name: Text,
    /// The width of the instruction words: 16, 32 or 64.
    pub word: Width,
    /// Its width is that of an address.
    pub pc: PcDecl,
    /// The name of the memory.
    pub memory: Text,
    pub regs: Items<RegDecl>,
    pub formats: Items<Format>,
    pub instrs: Items<Instr>,
    pub abi: Option<Abi>,
    pub micro: Option<Micro>,
}

/// A description whose operands have the widths that their places need. Contracts see it as its parts.
#[derive(Drop)]
pub struct Isa {
    parts: Parts,
}

impl Model for Isa {
    ghost use Rattle.std.specs.Prelude.{IsTrue};
    ghost use Rattle.vg_isa.specs.declared.isa.Parts.{Parts};
    ghost use Rattle.vg_isa.specs.contracts.isa.Parts as parts_type;
    ghost use Rattle.std.specs.Coded.{codes};

    ghost Value = { Parts };

    ghost coded = { Prim.hlevel (codes, parts_type.the_row.coded) };

    ghost use Rattle.vg_isa.specs.Accepted.{is_isa};

    ghost view = { λ isa. isa.parts };

    ghost invariant = { λ isa. IsTrue (is_isa isa.parts) };
}

impl Isa {
    ghost use Rattle.std.specs.Prelude.{◌≡◌, ◌<◌, IsTrue, length, slice_get, Some};
    ghost use Rattle.std.specs.List.{list_all};
    ghost use Rattle.std.specs.Option.{option_copied};
    ghost use Rattle.vg_isa.specs.Accepted.{is_format, is_instr, is_isa, is_machine_width, is_register_decl};

    /// A description of these parts.
    pub fn new(parts: Parts) -> Isa
        requires { IsTrue (is_isa parts) }
        ensures { result ≡ parts }
    {
        Isa { parts }
    }

    /// Its parts.
    pub fn parts(&self) -> &Parts
        ensures same { result.now ≡ self.now }
        ensures typed { IsTrue (is_isa self.now) }
    {
        &self.parts
    }

    /// The name of the architecture.
    pub fn name(&self) -> &[u8]
        ensures { result.now ≡ self.now.name }
    {
        self.parts.name.as_slice()
    }

    /// The width of the instruction words.
    pub fn word(&self) -> Width
        ensures value { result ≡ self.now.word }
        ensures machine { IsTrue (is_machine_width result) }
    {
        self.parts.word
    }

    /// The program counter, whose width is that of an address.
    pub fn pc(&self) -> &PcDecl
        ensures value { result.now ≡ self.now.pc }
        ensures machine { IsTrue (is_machine_width result.now.width) }
    {
        &self.parts.pc
    }

    /// The name of the memory.
    pub fn memory(&self) -> &[u8]
        ensures { result.now ≡ self.now.memory }
    {
        self.parts.memory.as_slice()
    }

    /// The single registers and register files.
    pub fn regs(&self) -> &[RegDecl]
        ensures value { result.now ≡ self.now.regs }
        ensures declared { IsTrue (list_all is_register_decl result.now) }
    {
        self.parts.regs.as_slice()
    }

    /// The formats of instruction words.
    pub fn formats(&self) -> &[Format]
        ensures value { result.now ≡ self.now.formats }
        ensures covered { IsTrue (list_all (is_format self.now.word) result.now) }
    {
        self.parts.formats.as_slice()
    }

    /// The instructions.
    pub fn instrs(&self) -> &[Instr]
        ensures value { result.now ≡ self.now.instrs }
        ensures typed { IsTrue (list_all (is_instr self.now) result.now) }
    {
        self.parts.instrs.as_slice()
    }

    /// An instruction.
    pub fn instr(&self, i: InstrId) -> &Instr
        requires { i.0 < length self.now.instrs }
        ensures same { slice_get self.now.instrs i.0 ≡ Some result.now }
        ensures typed { IsTrue (is_instr self.now result.now) }
    {
        match self.parts.instrs.get(i.0 as usize) {
            None => unreachable!(),
            Some(instr) => instr,
        }
    }

    /// The application binary interface, where the description has one.
    pub fn abi(&self) -> Option<&Abi>
        ensures { option_copied result ≡ self.now.abi }
    {
        self.parts.abi.as_ref()
    }

    /// The micro architecture, where the description has one.
    pub fn micro(&self) -> Option<&Micro>
        ensures { option_copied result ≡ self.now.micro }
    {
        self.parts.micro.as_ref()
    }
}
