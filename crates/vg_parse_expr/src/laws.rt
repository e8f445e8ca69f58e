ghost use Rattle.vg_parse_expr.specs.Exact.{ExpressionIsSound, ExpressionIsComplete, TypeIsSound, TypeIsComplete};

/// What is read as an expression or a type is one of the grammar, and each of the grammar is read, where it ends.
pub fn exact()
    ensures expression_sound { ExpressionIsSound }
    ensures expression_complete { ExpressionIsComplete }
    ensures type_sound { TypeIsSound }
    ensures type_complete { TypeIsComplete }
{}
