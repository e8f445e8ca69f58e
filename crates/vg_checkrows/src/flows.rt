ghost use Rattle.std.specs.Prelude.{◌≡◌, true, false, map, [], ◌∷◌};
ghost use Rattle.vg_ircheck.specs.Typing.{typing_places};
ghost use Rattle.vg_ircheck.specs.Counts.{count_places};
ghost use Rattle.vg_ircheck.specs.Holding.{holds_itself};
ghost use Rattle.vg_ircheck.specs.Uses.{Place, uses_of};
ghost use Rattle.vg_ircheck.specs.Unset.{IsUnset};
ghost use Rattle.vg_ir.specs.declared.ty.Ty.TheVariants.{Int};
ghost use Rattle.vg_ir.specs.declared.operand.Value.TheVariants.{Undef};
ghost use Rattle.vg_ircheck.specs.Phis.{lists_twice};
ghost use Rattle.vg_ircheck.specs.Names.{second_places};
ghost use Rattle.vg_irrows.specs.Words.{named, number, minus, constant, incoming};
ghost use Rattle.vg_checkrows.specs.Typed.{byte, label_at};
ghost use Rattle.vg_irrows.specs.Loops.{exchange, factorial};
ghost use Rattle.vg_checkrows.specs.Flows.{diamond_function, diamond, unreached_function, rings, lists_right};

/// Modules that keep the rules of types and of counts.
pub fn accepted()
    ensures exchange_typed { typing_places exchange ≡ [] }
    ensures factorial_typed { typing_places factorial ≡ [] }
    ensures diamond_typed { typing_places diamond ≡ [] }
    ensures exchange_counts { count_places exchange ≡ [] }
{}

/// What is read where, and what of it may be unset: a value that one of two branches sets, behind both; not in that branch,
/// behind its definition; and nothing in a block that no path reaches.
pub fn reads()
    ensures uses { uses_of diamond_function ≡
        record { value = named "c"; block = named "0"; place = record { block = 0; behind = [] } }
        ∷ record { value = named "v"; block = named "d"; place = record { block = 3; behind = [] } } ∷ [] }
    ensures unset { IsUnset diamond_function (named "v") (record { block = 3; behind = [] }) }
    ensures parameter { IsUnset diamond_function (named "c") (record { block = 3; behind = [] }) → ⊥ }
    ensures before { IsUnset diamond_function (named "v") (record { block = 1; behind = [] }) }
    ensures behind { IsUnset diamond_function (named "v") (record { block = 1; behind = named "v" ∷ [] }) → ⊥ }
    ensures unreached { IsUnset unreached_function (named "v") (record { block = 1; behind = [] }) → ⊥ }
{}

/// Structures in a ring hold themselves, and one that has them doesn't.
pub fn holding()
    ensures first { holds_itself rings (named "s") ≡ true }
    ensures third { holds_itself rings (named "u") ≡ true }
    ensures outside { holds_itself rings (named "v") ≡ false }
{}

/// Phis that list what they should, too little and too much, and one block twice.
pub fn phis()
    ensures right { lists_right (incoming (number 1) "0" ∷ incoming (number 2) "l" ∷ []) ≡ true }
    ensures as_a_set { lists_right (incoming (number 1) "l" ∷ incoming (number 2) "0" ∷ incoming (number 1) "l" ∷ []) ≡ true }
    ensures lacking { lists_right (incoming (number 1) "0" ∷ []) ≡ false }
    ensures other { lists_right (incoming (number 1) "0" ∷ incoming (number 2) "l" ∷ incoming (number 3) "e" ∷ []) ≡ false }
    ensures same { lists_twice (Int 8) (incoming (number 255) "0" ∷ incoming (minus 1) "0" ∷ []) ≡ false }
    ensures twice { lists_twice (Int 8) (incoming (number 1) "0" ∷ incoming (constant Undef) "0" ∷ []) ≡ true }
{}

/// Of two definitions of a name the later in the text is told, in whatever order they are listed.
pub fn names()
    ensures different { second_places (label_at 1 "a" ∷ label_at 2 "b" ∷ []) ≡ [] }
    ensures second { second_places (label_at 1 "a" ∷ label_at 2 "b" ∷ label_at 3 "a" ∷ []) ≡ byte 3 ∷ [] }
    ensures later { second_places (label_at 3 "a" ∷ label_at 1 "a" ∷ []) ≡ byte 3 ∷ [] }
{}
