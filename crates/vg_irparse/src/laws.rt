ghost use Rattle.vg_irparse.specs.ExactType.{TypeIsSound, TypeIsComplete};
ghost use Rattle.vg_irparse.specs.PlaceType.{TypeIsPlaced};

/// What is read as a type is one of the grammar, each type of the grammar is read, where it ends, and where a type is
/// refused the lexemes leave the grammar.
pub fn exact_types()
    ensures sound { TypeIsSound }
    ensures complete { TypeIsComplete }
    ensures placed { TypeIsPlaced }
{}
