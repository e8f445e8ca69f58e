ghost use Rattle.std.specs.Prelude.{◌≡◌};
ghost use Rattle.vg_ir.specs.WhatText.{what_text};

/// A construct of LLVM IR that has a name of its own and isn't accepted.
#[derive(Clone, Copy, Debug, PartialEq, Eq)]
pub enum What {
    FloatingPoint,
    Vector,
    PackedStruct,
    Atomic,
    Exceptions,
    Varargs,
    IndirectCall,
    ThreadLocal,
    InlineAssembly,
    ExternalGlobal,
    Linkage,
    IntegerType,
    TypedPointer,
    DynamicAlloca,
    ConstantExpression,
    AggregateValue,
    ByValueArgument,
    Musttail,
    Intrinsic,
    DebugRecord,
    ExternalFunction,
    FunctionAddress,
}

impl What {
    /// Its name in a refusal.
    pub fn text(self) -> &'static str
        ensures { result.now ≡ what_text self }
    {
        match self {
            What::FloatingPoint => "floating point",
            What::Vector => "vector",
            What::PackedStruct => "packed struct",
            What::Atomic => "atomic",
            What::Exceptions => "exceptions",
            What::Varargs => "varargs",
            What::IndirectCall => "indirect call",
            What::ThreadLocal => "thread local",
            What::InlineAssembly => "inline assembly",
            What::ExternalGlobal => "external global",
            What::Linkage => "linkage",
            What::IntegerType => "integer type",
            What::TypedPointer => "typed pointer",
            What::DynamicAlloca => "dynamic alloca",
            What::ConstantExpression => "constant expression",
            What::AggregateValue => "aggregate value",
            What::ByValueArgument => "by value argument",
            What::Musttail => "musttail",
            What::Intrinsic => "intrinsic",
            What::DebugRecord => "debug record",
            What::ExternalFunction => "external function",
            What::FunctionAddress => "function address",
        }
    }
}
