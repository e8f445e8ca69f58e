ghost use Rattle.vg_irglobal.specs.ExactInitial.{InitialsAreExact};
ghost use Rattle.vg_irglobal.specs.ExactGlobal.{GlobalsAreExact};
ghost use Rattle.vg_irglobal.specs.ExactStructure.{StructuresAreExact};
ghost use Rattle.vg_irglobal.specs.ExactSkipped.{SourceFilenamesAreExact, TargetsAreExact};

/// What is read as an initialiser is one of the grammar that the lexemes in front spell; each one is read, where it ends; and
/// where one is refused, the lexemes leave the grammar.
pub fn exact_initials()
    ensures { InitialsAreExact }
{}

/// So it is with globals.
pub fn exact_globals()
    ensures { GlobalsAreExact }
{}

/// And with named structures.
pub fn exact_structures()
    ensures { StructuresAreExact }
{}

/// And with items that leave no trace.
pub fn exact_skipped()
    ensures source_filenames { SourceFilenamesAreExact }
    ensures targets { TargetsAreExact }
{}
