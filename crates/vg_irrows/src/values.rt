ghost use Rattle.std.specs.Prelude.{◌≡◌};
ghost use Rattle.vg_ir.specs.declared.ty.Ty.TheVariants.{Int};
ghost use Rattle.vg_ir.specs.declared.operator.BinaryOperator.TheVariants.{Add, Sub, Mul, Udiv, Urem, Sdiv, Srem, Shl, Lshr, Ashr, And, Or, Xor};
ghost use Rattle.vg_ir.specs.declared.operator.Predicate.TheVariants.{Eq, Ne, Ugt, Uge, Ult, Ule, Sgt, Sge, Slt, Sle};
ghost use Rattle.vg_ir.specs.declared.operator.CastOperator.TheVariants.{Zext, Sext, Trunc, Bitcast};
ghost use Rattle.vg_ir.specs.Answer.{StoreOutside};
ghost use Rattle.vg_irrows.specs.Words.{Gives, Ends, Full, Fails};
ghost use Rattle.vg_irrows.specs.Values.{byte_of, bit_of, cast_of, through_address, in_many, nothing_run};

/// Sums, products and bits of bytes; -55 is 201 and -7 is 249.
pub fn operations()
    ensures add { byte_of Add 200 100 ≡ Gives 44 }
    ensures sub { byte_of Sub 5 10 ≡ Gives 251 }
    ensures mul { byte_of Mul 20 20 ≡ Gives 144 }
    ensures udiv { byte_of Udiv 200 7 ≡ Gives 28 }
    ensures urem { byte_of Urem 200 7 ≡ Gives 4 }
    ensures sdiv { byte_of Sdiv 201 7 ≡ Gives 249 }
    ensures sdiv_negative { byte_of Sdiv 55 249 ≡ Gives 249 }
    ensures srem { byte_of Srem 201 7 ≡ Gives 250 }
    ensures srem_negative { byte_of Srem 55 249 ≡ Gives 6 }
    ensures shl { byte_of Shl 3 7 ≡ Gives 128 }
    ensures lshr { byte_of Lshr 201 3 ≡ Gives 25 }
    ensures ashr { byte_of Ashr 201 3 ≡ Gives 249 }
    ensures and { byte_of And 12 10 ≡ Gives 8 }
    ensures or { byte_of Or 12 10 ≡ Gives 14 }
    ensures xor { byte_of Xor 12 10 ≡ Gives 6 }
{}

/// Comparisons of 200, which is -56, with 100.
pub fn comparisons()
    ensures eq { bit_of Eq 200 100 ≡ Gives 0 }
    ensures ne { bit_of Ne 200 100 ≡ Gives 1 }
    ensures ugt { bit_of Ugt 200 100 ≡ Gives 1 }
    ensures uge { bit_of Uge 200 100 ≡ Gives 1 }
    ensures ult { bit_of Ult 200 100 ≡ Gives 0 }
    ensures ule { bit_of Ule 200 100 ≡ Gives 0 }
    ensures sgt { bit_of Sgt 200 100 ≡ Gives 0 }
    ensures sge { bit_of Sge 200 100 ≡ Gives 0 }
    ensures slt { bit_of Slt 200 100 ≡ Gives 1 }
    ensures sle { bit_of Sle 200 100 ≡ Gives 1 }
{}

/// Comparisons of a number with itself.
pub fn comparisons_of_equals()
    ensures eq { bit_of Eq 200 200 ≡ Gives 1 }
    ensures ne { bit_of Ne 200 200 ≡ Gives 0 }
    ensures ugt { bit_of Ugt 200 200 ≡ Gives 0 }
    ensures uge { bit_of Uge 200 200 ≡ Gives 1 }
    ensures ule { bit_of Ule 200 200 ≡ Gives 1 }
    ensures sgt { bit_of Sgt 200 200 ≡ Gives 0 }
    ensures sge { bit_of Sge 200 200 ≡ Gives 1 }
    ensures sle { bit_of Sle 200 200 ≡ Gives 1 }
{}

/// Casts between integers, and through addresses of 32 bits.
pub fn casts()
    ensures zext { cast_of Zext (Int 8) 200 (Int 16) ≡ Gives 200 }
    ensures sext { cast_of Sext (Int 8) 200 (Int 16) ≡ Gives 65480 }
    ensures trunc { cast_of Trunc (Int 16) 456 (Int 8) ≡ Gives 200 }
    ensures bitcast { cast_of Bitcast (Int 8) 200 (Int 8) ≡ Gives 200 }
    ensures narrowed { through_address (Int 32) 74565 (Int 16) ≡ Gives 9029 }
    ensures widened { through_address (Int 8) 200 (Int 64) ≡ Gives 200 }
    ensures cut { through_address (Int 64) 4294967301 (Int 32) ≡ Gives 5 }
{}

/// An alloca with a count that wraps: its last byte, and the one behind it.
pub fn counts()
    ensures last { in_many 509 ≡ Gives 7 }
    ensures behind { in_many 510 ≡ Fails StoreOutside }
{}

/// A run that gives nothing; and the first frame, which has room below what is passed or has not.
pub fn starts()
    ensures ends { nothing_run 0 1 ≡ Ends }
    ensures fits { nothing_run 16 1 ≡ Ends }
    ensures full { nothing_run 32 0 ≡ Full }
    ensures below_all { nothing_run 8192 0 ≡ Full }
{}
