ghost use Rattle.vg_irread.specs.ExactOperand.{TypesAreExact, ResultNamesAreExact, OperandsAreExact, TypedAreExact, ValuesAreExact};
ghost use Rattle.vg_irread.specs.ExactInstruction.{BinaryIsExact, CompareIsExact, SelectIsExact, CastIsExact, FreezeIsExact, OperationIsExact};
ghost use Rattle.vg_irread.specs.ExactTerminator.{TerminatorsAreExact};

/// What is read as a type, a name or an operand is one of the grammar that the lexemes in front spell; each one is read, where
/// it ends; and where one is refused, the lexemes leave the grammar.
pub fn exact_operands()
    ensures types { TypesAreExact }
    ensures names { ResultNamesAreExact }
    ensures operands { OperandsAreExact }
    ensures typed { TypedAreExact }
    ensures values { ValuesAreExact }
{}

/// So it is with instructions.
pub fn exact_instructions()
    ensures binary { BinaryIsExact }
    ensures compare { CompareIsExact }
    ensures select { SelectIsExact }
    ensures cast { CastIsExact }
    ensures freeze { FreezeIsExact }
    ensures by_word { OperationIsExact }
{}

/// So it is with terminators.
pub fn exact_terminators()
    ensures { TerminatorsAreExact }
{}
