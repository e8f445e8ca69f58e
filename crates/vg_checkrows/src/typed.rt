ghost use Rattle.std.specs.Prelude.{◌≡◌, [], ◌∷◌, codes};
ghost use Rattle.vg_ir.specs.declared.ty.Ty.TheVariants.{Int, Ptr, Array, Struct, Named};
ghost use Rattle.vg_ir.specs.declared.operand.Value.TheVariants.{True, Null, Undef, Global};
ghost use Rattle.vg_ir.specs.declared.operator.BinaryOperator.TheVariants.{Add};
ghost use Rattle.vg_ir.specs.declared.operator.CastOperator.TheVariants.{Zext, Trunc, PtrToInt, Bitcast};
ghost use Rattle.vg_ir.specs.declared.initializer.Initializer.TheVariants as initial;
ghost use Rattle.vg_irrows.specs.Words.{named, type_at, positive, here, binary, cast, select, load, index, element, call, call_void, typed, ret, ret_void, jump};
ghost use Rattle.vg_checkrows.specs.Typed.{byte, operand_at, local_at, number_at, instruction_faults, end_faults, initial_faults};

/// Operands of other types than their instruction needs.
pub fn instructions()
    ensures right { instruction_faults (binary "r" Add (Int 32) (local_at 1 "a") (number_at 2 7)) ≡ [] }
    ensures narrow { instruction_faults (binary "r" Add (Int 32) (local_at 1 "a") (local_at 2 "b")) ≡ byte 2 ∷ [] }
    ensures undefined { instruction_faults (binary "r" Add (Int 32) (local_at 1 "x") (local_at 2 "b")) ≡ byte 1 ∷ byte 2 ∷ [] }
    ensures label { instruction_faults (binary "r" Add (Int 32) (local_at 1 "0") (number_at 2 7)) ≡ byte 1 ∷ [] }
    ensures no_integer { instruction_faults (binary "r" Add Ptr (local_at 1 "p") (operand_at 2 Undef)) ≡ byte 1 ∷ byte 2 ∷ [] }
    ensures bit { instruction_faults (select "r" (local_at 1 "c") (Int 1) (operand_at 2 True) (operand_at 3 Null)) ≡ byte 3 ∷ [] }
    ensures loaded { instruction_faults (load "r" (Int 8) (operand_at 1 (Global (named "g")))) ≡ [] }
    ensures not_address { instruction_faults (load "r" (Int 8) (local_at 1 "a")) ≡ byte 1 ∷ [] }
    ensures no_global { instruction_faults (load "r" (Int 8) (operand_at 1 (Global (named "f")))) ≡ byte 1 ∷ [] }
    ensures element { instruction_faults (element "r" (Named (named "s")) (local_at 1 "p") (index 64 (number_at 2 9) ∷ index 32 (number_at 3 1) ∷ index 8 (local_at 4 "b") ∷ [])) ≡ [] }
    ensures no_field { instruction_faults (element "r" (Named (named "s")) (local_at 1 "p") (index 64 (number_at 2 9) ∷ index 32 (number_at 3 2) ∷ [])) ≡ byte 3 ∷ [] }
    ensures wide_field { instruction_faults (element "r" (Named (named "s")) (local_at 1 "p") (index 64 (number_at 2 9) ∷ index 64 (number_at 3 1) ∷ [])) ≡ byte 3 ∷ [] }
    ensures no_part { instruction_faults (element "r" (Int 8) (local_at 1 "p") (index 64 (number_at 2 9) ∷ index 32 (number_at 3 0) ∷ [])) ≡ byte 3 ∷ [] }
{}

/// Casts: from a wrong type at the operand, to a wrong one at the word.
pub fn casts()
    ensures wider { instruction_faults (cast "r" Zext (Int 8) (local_at 1 "b") (Int 32)) ≡ [] }
    ensures same { instruction_faults (cast "r" Zext (Int 8) (local_at 1 "b") (Int 8)) ≡ here ∷ [] }
    ensures from_address { instruction_faults (cast "r" Trunc Ptr (local_at 1 "p") (Int 8)) ≡ byte 1 ∷ [] }
    ensures to_address { instruction_faults (cast "r" PtrToInt Ptr (local_at 1 "p") Ptr) ≡ here ∷ [] }
    ensures bitcast { instruction_faults (cast "r" Bitcast (Int 8) (local_at 1 "b") (Int 32)) ≡ here ∷ [] }
{}

/// Calls of a function with four parameters, and of what is no function.
pub fn calls()
    ensures right { instruction_faults (call "r" (Int 32) "f" (typed (Int 32) (local_at 1 "a") ∷ typed (Int 8) (number_at 2 0) ∷ typed (Int 1) (local_at 3 "c") ∷ typed Ptr (local_at 4 "p") ∷ [])) ≡ [] }
    ensures fewer { instruction_faults (call "r" (Int 32) "f" (typed (Int 32) (local_at 1 "a") ∷ [])) ≡ here ∷ [] }
    ensures void { instruction_faults (call_void "f" (typed (Int 32) (local_at 1 "b") ∷ [])) ≡ here ∷ byte 1 ∷ [] }
    ensures global { instruction_faults (call_void "g" []) ≡ here ∷ [] }
{}

/// What a function of i32 gives, and blocks that there aren't.
pub fn ends()
    ensures right { end_faults (ret (Int 32) (local_at 1 "a")) ≡ [] }
    ensures wrong { end_faults (ret (Int 8) (local_at 1 "b")) ≡ byte 1 ∷ [] }
    ensures nothing { end_faults ret_void ≡ here ∷ [] }
    ensures block { end_faults (jump "0") ≡ [] }
    ensures value { end_faults (jump "a") ≡ here ∷ [] }
{}

/// Initialisers: a wrong element at the element, a wrong number of them at the whole.
pub fn initializers()
    ensures number { initial_faults (Int 32) (initial.Number (positive 1) (byte 1)) ≡ [] }
    ensures no_number { initial_faults Ptr (initial.Number (positive 1) (byte 1)) ≡ byte 1 ∷ [] }
    ensures zero { initial_faults (Named (named "s")) (initial.Zero (byte 1)) ≡ [] }
    ensures text { initial_faults (Array 2 (Int 8)) (initial.Text (codes "ab") (byte 1)) ≡ [] }
    ensures short_text { initial_faults (Array 3 (Int 8)) (initial.Text (codes "ab") (byte 1)) ≡ byte 1 ∷ [] }
    ensures elements { initial_faults (Array 2 (Int 8)) (initial.Array ((type_at (Int 8), initial.Number (positive 1) (byte 2)) ∷ (type_at (Int 8), initial.Undef (byte 3)) ∷ []) (byte 1)) ≡ [] }
    ensures few_elements { initial_faults (Array 3 (Int 8)) (initial.Array ((type_at (Int 8), initial.Number (positive 1) (byte 2)) ∷ (type_at (Int 16), initial.Undef (byte 3)) ∷ []) (byte 1)) ≡ byte 1 ∷ byte 3 ∷ [] }
    ensures fields { initial_faults (Named (named "s")) (initial.Struct ((type_at (Int 8), initial.Number (positive 1) (byte 2)) ∷ (type_at (Array 2 (Int 32)), initial.Zero (byte 3)) ∷ []) (byte 1)) ≡ [] }
    ensures wrong_field { initial_faults (Named (named "s")) (initial.Struct ((type_at (Int 8), initial.True (byte 2)) ∷ (type_at (Array 3 (Int 32)), initial.Zero (byte 3)) ∷ []) (byte 1)) ≡ byte 2 ∷ byte 3 ∷ [] }
{}
