ghost use Rattle.std.specs.Prelude.{◌≡◌, ◌⊎◌, ℕ, List, None, IsTrue};
ghost use Rattle.std.specs.Str.{encode_utf8_all};
ghost use Rattle.vg_form.specs.Description.{is_ascii};
ghost use Rattle.vg_isa.specs.declared.isa.Parts.{Parts};
ghost use Rattle.vg_rule.specs.declared.rule.Rule.{Rule as TheRule};
ghost use Rattle.vg_top.specs.declared.reason.Reason.{Reason as TheReason};
ghost use Rattle.vg_top.specs.declared.needs.Needs.{Needs as TheNeeds};
ghost use Rattle.vg_top.specs.Agreeing.{Agree, FailAlike};
ghost use Rattle.vg_top.specs.Answers.{Answer as TheAnswer, Held};
ghost use Rattle.vg_top.specs.Commands.{IsAnswer};
ghost use Rattle.vg_top.specs.Description.{HasOutcome, IsDescription, IsBroken, IsUnbuilt};
ghost use Rattle.vg_top.specs.Reason.{AreAlike, IsReason, lacking};

/// Each text is the description of one processor, or breaks one rule first at one place, or has one first place that isn't
/// built yet; and no two of these.
pub fn one_description()
    ensures some { (bytes : List ℕ) → HasOutcome bytes }
    ensures description { (bytes : List ℕ) (d e : Parts) → IsDescription bytes d → IsDescription bytes e → d ≡ e }
    ensures broken { (bytes : List ℕ) (r s : TheRule) (a b : ℕ) → IsBroken bytes r a → IsBroken bytes s b → (r ≡ s) × (a ≡ b) }
    ensures unbuilt { (bytes : List ℕ) (a b : ℕ) → IsUnbuilt bytes a → IsUnbuilt bytes b → a ≡ b }
    ensures description_or_broken { (bytes : List ℕ) (d : Parts) (r : TheRule) (a : ℕ) → IsDescription bytes d → IsBroken bytes r a → ⊥ }
    ensures description_or_unbuilt { (bytes : List ℕ) (d : Parts) (a : ℕ) → IsDescription bytes d → IsUnbuilt bytes a → ⊥ }
    ensures unbuilt_or_broken { (bytes : List ℕ) (at : ℕ) (r : TheRule) (a : ℕ) → IsUnbuilt bytes at → IsBroken bytes r a → ⊥ }
{}

/// Each text is a description that lacks nothing, or is refused for a reason, and not both; and two reasons for which it is
/// refused are alike.
pub fn one_reason()
    ensures some { (bytes : List ℕ) (needs : TheNeeds) → ((d : Parts) × IsDescription bytes d × (lacking needs d ≡ None)) ⊎ ((r : TheReason) × IsReason bytes needs r) }
    ensures alike { (bytes : List ℕ) (needs : TheNeeds) (r s : TheReason) → IsReason bytes needs r → IsReason bytes needs s → AreAlike r s }
    ensures described_or_refused { (bytes : List ℕ) (needs : TheNeeds) (d : Parts) (r : TheReason) → IsDescription bytes d → lacking needs d ≡ None → IsReason bytes needs r → ⊥ }
{}

/// Two answers to the same words and files are one where their loads failed alike: none did, or the last of as many.
pub fn one_answer()
    ensures { (held : Held) (words : List (List ℕ)) (a b : TheAnswer) → IsAnswer held words a → IsAnswer held words b → FailAlike a b → Agree a b }
{}

/// The bytes of a name are its characters in UTF-8. Of an ASCII name, as processors keep them so far, these are its
/// characters.
pub fn ascii_names()
    ensures { (name : List ℕ) → IsTrue (is_ascii name) → encode_utf8_all name ≡ name }
{}
