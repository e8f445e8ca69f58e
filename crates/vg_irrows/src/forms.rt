ghost use Rattle.std.specs.Prelude.{◌≡◌, map, [], ◌∷◌, Some};
ghost use Rattle.vg_irrows.specs.Words.{report, Gives, bytes_at_end};
ghost use Rattle.vg_irrows.specs.Forms.{narrow_run, structures_run, choices_run};

/// Numbers of fewer bits than an address.
pub fn narrow_numbers()
    ensures ends { report (narrow_run 6) ≡ Gives 2 }
{}

/// Fields and elements of a structure, from an address in memory: what the run gives is the address behind the structure,
/// and its bytes are those of its initialiser with one element stored over another.
pub fn structures()
    ensures ends { report (structures_run 8) ≡ Gives 8388620 }
    ensures first_bytes { bytes_at_end (structures_run 8) 8388608 8 ≡ map Some (1 ∷ 0 ∷ 0 ∷ 0 ∷ 254 ∷ 255 ∷ 255 ∷ 255 ∷ []) }
    ensures last_bytes { bytes_at_end (structures_run 8) 8388616 8 ≡ map Some (4 ∷ 0 ∷ 4 ∷ 0 ∷ 0 ∷ 0 ∷ 128 ∷ 0 ∷ []) }
{}

/// Cases of a switch, phis behind it, a selection, and calls with a result and without one.
pub fn choices()
    ensures minus_one { report (choices_run 255 13) ≡ Gives 40 }
    ensures one { report (choices_run 1 13) ≡ Gives 0 }
    ensures least { report (choices_run 128 12) ≡ Gives 20 }
{}
