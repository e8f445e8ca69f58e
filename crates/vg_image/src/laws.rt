//! Laws on images, states and runs.
ghost use Rattle.std.specs.Prelude.{◌≡◌, ◌++◌, ℕ, List, [], IsTrue};
ghost use Rattle.vg_isa.specs.declared.isa.Parts.{Parts};
ghost use Rattle.vg_isa.specs.Accepted.{is_isa};
ghost use Rattle.vg_isa.specs.Value.{IsLawful, ReadAlike};
ghost use Rattle.vg_image.specs.declared.image.Image.{Image};
ghost use Rattle.vg_image.specs.Reading.{IsFaultLine, IsSpelled};
ghost use Rattle.vg_image.specs.Spelling.{IsImage, spelling};
ghost use Rattle.vg_image.specs.State.{IsState, State, first_state, reads_of};
ghost use Rattle.vg_image.specs.Step.{Moved, step_of};
ghost use Rattle.vg_image.specs.Run.{IsRun, Stand, after, run_of};

/// Two images that one text spells are one image, and no spelling goes on as another.
pub fn one_image()
    ensures spelled { (d : Parts) (text : List ℕ) (i j : Image) → IsTrue (is_isa d)
        → IsSpelled d text i → IsSpelled d text j → i ≡ j }
    ensures alone { (d : Parts) (i j : Image) (rest : List ℕ) → IsTrue (is_isa d)
        → IsImage d i → IsImage d j → spelling d i ++ rest ≡ spelling d j → rest ≡ [] }
{}

/// A text is refused at one line.
pub fn one_line()
    ensures { (d : Parts) (text : List ℕ) (l m : ℕ) → IsFaultLine d text l → IsFaultLine d text m → l ≡ m }
{}

/// The run that `IsRun` tells and the run as a function are one.
pub fn one_run()
    ensures relation { (d : Parts) (i : Image) (bound : ℕ) (s : State) (r : Stand)
        → IsRun d i bound s r → r ≡ run_of d i bound s }
    ensures function { (d : Parts) (i : Image) (bound : ℕ) (s : State) → IsRun d i bound s (run_of d i bound s) }
{}

/// Two states of a description that read alike are one.
pub fn same_reads()
    ensures { (d : Parts) (s t : State) → IsState d s → IsState d t
        → ReadAlike d (reads_of d s) (reads_of d t) → s ≡ t }
{}

/// What a state keeps, the first state of an image has, and each step and each run keeps. Such a state reads bit values
/// of the declared widths, and bytes.
pub fn states_are_kept()
    ensures first { (d : Parts) (i : Image) → IsImage d i → IsState d (first_state d i) }
    ensures step { (d : Parts) (i : Image) (s t : State) → IsTrue (is_isa d)
        → IsState d s → step_of d i s ≡ Moved t → IsState d t }
    ensures run { (d : Parts) (i : Image) (n : ℕ) (s : State) → IsTrue (is_isa d)
        → IsState d s → IsState d (after d i n s) }
    ensures lawful { (d : Parts) (s : State) → IsState d s → IsLawful d (reads_of d s) }
{}
