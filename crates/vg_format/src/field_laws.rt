//! Laws on fields that are set, and on the words of instructions.
ghost use Rattle.std.specs.Prelude.{◌≡◌, ℕ, false, IsTrue, List};
ghost use Rattle.vg_bits.specs.BitValue.{BitValue};
ghost use Rattle.vg_isa.specs.declared.isa.Parts.{Parts};
ghost use Rattle.vg_isa.specs.declared.ids.FieldId.{FieldId};
ghost use Rattle.vg_isa.specs.Accepted.{is_isa};
ghost use Rattle.vg_isa.specs.Declaration.{field_of, has_field};
ghost use Rattle.vg_isa.specs.Same.{same_field};
ghost use Rattle.vg_format.specs.Encoding.{IsEncoded};
ghost use Rattle.vg_format.specs.Setting.{SetsField, is_bit_of};

/// Different fields of one format share no bit.
pub fn fields_apart()
    ensures { (d : Parts) (f g : FieldId) (k : ℕ) → IsTrue (is_isa d) → IsTrue (has_field d f) → IsTrue (has_field d g) → f.format.0 ≡ g.format.0 → same_field f g ≡ false → IsTrue (is_bit_of d f k) → is_bit_of d g k ≡ false }
{}

/// Where a field is set, any other field of the format reads as before.
pub fn other_fields_stay()
    ensures { (d : Parts) (f g : FieldId) (word value changed : BitValue) → IsTrue (is_isa d) → IsTrue (has_field d f) → IsTrue (has_field d g) → f.format.0 ≡ g.format.0 → same_field f g ≡ false → SetsField d f word value changed → field_of d g changed.number ≡ field_of d g word.number }
{}

/// One word at most has the field set.
pub fn one_setting()
    ensures { (d : Parts) (f : FieldId) (word value a b : BitValue) → SetsField d f word value a → SetsField d f word value b → a ≡ b }
{}

/// To set a field to what it is changes nothing.
pub fn reading_undoes()
    ensures { (d : Parts) (f : FieldId) (word changed : BitValue) → SetsField d f word (field_of d f word.number) changed → changed ≡ word }
{}

/// One word at most is that of an instruction with given fields.
pub fn one_encoding()
    ensures { (d : Parts) (i : ℕ) (fields : List (FieldId × BitValue)) (a b : BitValue) → IsEncoded d i fields a → IsEncoded d i fields b → a ≡ b }
{}
