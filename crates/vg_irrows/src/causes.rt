ghost use Rattle.std.specs.Prelude.{◌≡◌, [], ◌∷◌};
ghost use Rattle.vg_ir.specs.declared.ty.Ty.TheVariants.{Int, Ptr};
ghost use Rattle.vg_ir.specs.declared.operand.Value.TheVariants.{Null};
ghost use Rattle.vg_ir.specs.declared.operator.BinaryOperator.TheVariants.{Udiv, Sdiv, Urem, Srem, Shl, Lshr, Ashr};
ghost use Rattle.vg_ir.specs.Answer.{UnsignedByZero, SignedByZero, SignedOverflow, ShiftTooFar, Unreachable, LoadOutside, StoreOutside, LoadUnset, LoadNoBit, StoreConstant};
ghost use Rattle.vg_irrows.specs.Words.{report, Gives, Fails, NotSet, local, number, minus, constant, alloca, load, store, ret, unreachable};
ghost use Rattle.vg_irrows.specs.Causes.{straight_run, operation, kept_run, left_behind_run};

/// A division by 0, and one of the least value by -1.
pub fn divisions()
    ensures udiv { report (operation Udiv (Int 32) (number 1) (number 0) 1) ≡ Fails UnsignedByZero }
    ensures urem { report (operation Urem (Int 32) (number 1) (number 0) 1) ≡ Fails UnsignedByZero }
    ensures sdiv { report (operation Sdiv (Int 32) (number 1) (number 0) 1) ≡ Fails SignedByZero }
    ensures srem { report (operation Srem (Int 32) (number 1) (number 0) 1) ≡ Fails SignedByZero }
    ensures sdiv_least { report (operation Sdiv (Int 32) (minus 2147483648) (minus 1) 1) ≡ Fails SignedOverflow }
    ensures srem_least { report (operation Srem (Int 8) (minus 128) (number 255) 1) ≡ Fails SignedOverflow }
    ensures sdiv_next { report (operation Sdiv (Int 8) (minus 127) (minus 1) 2) ≡ Gives 0 }
{}

/// A shift by the width or more.
pub fn shifts()
    ensures shl { report (operation Shl (Int 8) (number 1) (number 8) 1) ≡ Fails ShiftTooFar }
    ensures lshr { report (operation Lshr (Int 32) (number 1) (number 32) 1) ≡ Fails ShiftTooFar }
    ensures ashr { report (operation Ashr (Int 8) (number 1) (minus 1) 1) ≡ Fails ShiftTooFar }
    ensures shl_less { report (operation Shl (Int 8) (number 1) (number 7) 2) ≡ Gives 0 }
{}

/// The word `unreachable`.
pub fn unreachables()
    ensures here { report (straight_run [] unreachable 1) ≡ Fails Unreachable }
{}

/// Loads and stores that aren't wholly in one live object: at no object, over its end, and in the frame of a call that has
/// returned.
pub fn accesses()
    ensures load_null { report (straight_run (load "x" (Int 8) (constant Null) ∷ []) unreachable 1) ≡ Fails LoadOutside }
    ensures load_over { report (straight_run (alloca "a" (Int 16) ∷ load "x" (Int 32) (local "a") ∷ []) unreachable 2) ≡ Fails LoadOutside }
    ensures load_left { report (left_behind_run 5) ≡ Fails LoadOutside }
    ensures store_null { report (straight_run (store (Int 8) (number 1) (constant Null) ∷ []) unreachable 1) ≡ Fails StoreOutside }
    ensures store_over { report (straight_run (alloca "a" (Int 16) ∷ store (Int 32) (number 1) (local "a") ∷ []) unreachable 2) ≡ Fails StoreOutside }
{}

/// Loads of bytes that aren't set, wholly or in part, and of an i1 from a byte above 1.
pub fn bytes()
    ensures none_set { report (straight_run (alloca "a" (Int 16) ∷ load "x" (Int 16) (local "a") ∷ []) unreachable 2) ≡ Fails LoadUnset }
    ensures half_set { report (straight_run (alloca "a" (Int 16) ∷ store (Int 8) (number 1) (local "a") ∷ load "x" (Int 16) (local "a") ∷ []) unreachable 3) ≡ Fails LoadUnset }
    ensures no_bit { report (straight_run (alloca "a" (Int 8) ∷ store (Int 8) (number 2) (local "a") ∷ load "x" (Int 1) (local "a") ∷ []) unreachable 3) ≡ Fails LoadNoBit }
    ensures a_bit { report (straight_run (alloca "a" (Int 8) ∷ store (Int 8) (number 1) (local "a") ∷ load "x" (Int 1) (local "a") ∷ []) (ret (Int 1) (local "x")) 4) ≡ Gives 1 }
{}

/// A constant is loaded from, and not stored to.
pub fn constants()
    ensures stored { report (kept_run 2) ≡ Fails StoreConstant }
{}

/// A value is read before it is set: that is none of the causes.
pub fn unset_values()
    ensures read { report (straight_run [] (ret (Int 32) (local "x")) 1) ≡ NotSet }
{}
