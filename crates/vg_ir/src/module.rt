use crate::{Function, Global, NameAt, TypeAt};
use sqlite_items::Items;
use std::marker::Model;

/// `%name = type { T, .. }`
#[derive(Drop)]
pub struct Structure {
    pub name: NameAt,
    /// The structure that the name stands for.
    pub ty: TypeAt,
}

/// The parts of a module, each list in the order of the text. Skipped words and items leave no trace.
#[derive(Drop)]
pub struct Parts {
    pub structures: Items<Structure>,
    pub globals: Items<Global>,
    pub functions: Items<Function>,
}

/// A module whose parts are as the grammar has them: each function has a block and each phi lists one, an `alloca` stands
/// in an entry block, the numbers of a `switch` differ, integers have 1, 8, 16, 32 or 64 bits, a number fits its integer
/// type, and no value is an array or a structure. Contracts see it as its parts.
#[derive(Drop)]
pub struct Module {
    parts: Parts,
}

impl Model for Module {
    ghost use Rattle.std.specs.Prelude.{IsTrue};
    ghost use Rattle.vg_ir.specs.declared.module.Parts.{Parts};
    ghost use Rattle.vg_ir.specs.contracts.module.Parts as parts_type;
    ghost use Rattle.std.specs.Coded.{codes};

    ghost Value = { Parts };

    ghost coded = { Prim.hlevel (codes, parts_type.the_row.coded) };

    ghost use Rattle.vg_ir.specs.WellFormed.{is_module};

    ghost view = { λ m. m.parts };

    ghost invariant = { λ m. IsTrue (is_module m.parts) };
}

impl Module {
    ghost use Rattle.std.specs.Prelude.{◌≡◌, IsTrue};
    ghost use Rattle.vg_ir.specs.WellFormed.{is_module};

    /// A module of these parts.
    pub fn new(parts: Parts) -> Module
        requires { IsTrue (is_module parts) }
        ensures { result ≡ parts }
    {
        Module { parts }
    }

    /// Its parts.
    pub fn parts(&self) -> &Parts
        ensures same { result.now ≡ self.now }
        ensures formed { IsTrue (is_module self.now) }
    {
        &self.parts
    }

    /// Its parts, taken out of it.
    pub fn into_parts(self) -> Parts
        ensures same { result ≡ self }
        ensures formed { IsTrue (is_module self) }
    {
        self.parts
    }
}
