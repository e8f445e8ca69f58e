ghost use Rattle.std.specs.Prelude.{◌≡◌};
ghost use Rattle.vg_rule.specs.Fault.{told_by};

use crate::breach::Breach;
use crate::rule::Rule;
use std::alloc::AllocError;
use thiserror::Error;

/// The first rule that a description breaks, of those that are asked of its tree, and the first place in the text where
/// it does. A place is the offset of a byte in the text, from 0.
#[derive(Clone, Copy, Debug, PartialEq, Eq, Error)]
pub enum DescFault {
    /// A name is defined twice in one scope, or a second program counter, memory, encoding or assembly stands there. The
    /// place is that of the second name.
    #[error("byte {at}: defined twice")]
    Duplicate { at: usize },
    /// A name is used that its scope doesn't define as what its place asks for, or something is lacking. The place is
    /// that of the use; of an instruction that lacks an encoding, that of its name; of a description that lacks a program
    /// counter, a memory or an instruction, that of the `}` of its instruction set part.
    #[error("byte {at}: unknown")]
    Unknown { at: usize },
    /// A constant, an alias or a function uses itself, directly or through others. The place is that of the name of the
    /// first one that does.
    #[error("byte {at}: uses itself")]
    Cyclic { at: usize },
    /// A whole number leaves 0 to 2^128 - 1, or is divided by 0. The place is that of the operator.
    #[error("byte {at}: leaves the whole numbers")]
    Overflow { at: usize },
    /// An expression or a goal has no type, or not the one of its place; or a type is declared that its place forbids. The
    /// place is the first token of the smallest such expression, of the goal, or of the type.
    #[error("byte {at}: has not the type of its place")]
    Width { at: usize },
    /// A width isn't 1 to 128 or not the one of its place, a constant doesn't fit its type, a slice leaves its operand, an
    /// access is of too many bytes, or the number of a target is too great. The place is the first token of the type, the
    /// number, the `[` of the slice, the `<` of the access, or the operator whose result is too wide.
    #[error("byte {at}: out of range")]
    Range { at: usize },
    /// The ranges of a format don't name each bit of it exactly once, or a range runs upwards. The place is the field, or
    /// for a bit without a field the format's name.
    #[error("byte {at}: does not name each bit once")]
    FieldCover { at: usize },
    /// An encoding names a field twice or gives it a value that doesn't fit. The place is the field's name there.
    #[error("byte {at}: not one value that fits")]
    FieldValue { at: usize },
    /// One path through a behaviour writes a resource twice, or two writes differ in their index, address or size. The
    /// place is the first token of the second write.
    #[error("byte {at}: a second write")]
    TwoWrites { at: usize },
    /// A behaviour has two memory reads with different addresses or sizes. The place is that of the second.
    #[error("byte {at}: a second memory access")]
    TwoAccesses { at: usize },
    /// A register index isn't made of fields, constants and casts alone. The place is the index's first token.
    #[error("byte {at}: not an index of fields")]
    IndexNotField { at: usize },
    /// A rule of the application binary interface is broken. The place is the first token of the role, or for one that is
    /// lacking the `}` of the part.
    #[error("byte {at}: breaks a rule of the binary interface")]
    AbiRole { at: usize },
    /// A rule of the stages is broken. The place is the first token of the act, or for one that is lacking the `}` of the
    /// part.
    #[error("byte {at}: breaks a rule of the stages")]
    StageOrder { at: usize },
    /// A behaviour has more than 4,096 nodes, or something else is too many. The place is the name of the instruction, of
    /// the first item too many, or of the register file.
    #[error("byte {at}: too many")]
    Limit { at: usize },
    /// Memory ran out.
    #[error("out of memory")]
    OutOfMemory,
}

impl DescFault {
    /// The rule that is broken, and where; or `None` where memory ran out.
    pub fn breach(self) -> Option<Breach>
        ensures { result ≡ told_by self }
    {
        let (rule, at) = match self {
            DescFault::Duplicate { at } => (Rule::Duplicate, at),
            DescFault::Unknown { at } => (Rule::Unknown, at),
            DescFault::Cyclic { at } => (Rule::Cyclic, at),
            DescFault::Overflow { at } => (Rule::Overflow, at),
            DescFault::Width { at } => (Rule::Width, at),
            DescFault::Range { at } => (Rule::Range, at),
            DescFault::FieldCover { at } => (Rule::FieldCover, at),
            DescFault::FieldValue { at } => (Rule::FieldValue, at),
            DescFault::TwoWrites { at } => (Rule::TwoWrites, at),
            DescFault::TwoAccesses { at } => (Rule::TwoAccesses, at),
            DescFault::IndexNotField { at } => (Rule::IndexNotField, at),
            DescFault::AbiRole { at } => (Rule::AbiRole, at),
            DescFault::StageOrder { at } => (Rule::StageOrder, at),
            DescFault::Limit { at } => (Rule::Limit, at),
            DescFault::OutOfMemory => return None,
        };
        Some(Breach { rule, at })
    }
}

impl From<AllocError> for DescFault {
    ghost use Rattle.vg_rule.specs.declared.desc_fault.DescFault.TheVariants.{OutOfMemory};

    ghost from_gives = { λ _ e. e ≡ OutOfMemory };

    fn from(_error: AllocError) -> DescFault {
        DescFault::OutOfMemory
    }
}
