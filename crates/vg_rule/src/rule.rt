ghost use Rattle.std.specs.Prelude.{◌≡◌};
ghost use Rattle.vg_rule.specs.Rule.{number_of, name_of};

/// A rule of descriptions, by its number. `specs/Order.antt` has the order in which they are asked.
#[derive(Clone, Copy, Debug, PartialEq, Eq)]
pub enum Rule {
    /// The text is in the grammar.
    Syntax,
    /// Nothing is defined twice.
    Duplicate,
    /// All names are known, and nothing is lacking.
    Unknown,
    /// Nothing uses itself.
    Cyclic,
    /// No operator leaves the whole numbers.
    Overflow,
    /// Each expression has a type, and that of its place.
    Width,
    /// Widths, constants, slices and accesses are in their ranges.
    Range,
    /// A format's fields name each of its bits once.
    FieldCover,
    /// An encoding gives each field one value that fits.
    FieldValue,
    /// No word matches two encodings.
    Overlap,
    /// No path writes a resource twice.
    TwoWrites,
    /// No behaviour reads memory in two ways.
    TwoAccesses,
    /// An index of a register is made of fields and constants.
    IndexNotField,
    /// No line of assembly stands for two instructions.
    Ambiguous,
    /// The application binary interface keeps its rules, and is there where a command needs it.
    AbiRole,
    /// The stages keep theirs, and are there where a command needs them.
    StageOrder,
    /// Each part of an instruction is ready by its stage.
    Unplaced,
    /// No behaviour has too many nodes, and nothing else is too many.
    Limit,
}

impl Rule {
    /// Its number in refusals.
    pub fn number(self) -> u64
        ensures { result ≡ number_of self }
    {
        match self {
            Rule::Syntax => 1,
            Rule::Duplicate => 2,
            Rule::Unknown => 3,
            Rule::Cyclic => 4,
            Rule::Overflow => 5,
            Rule::Width => 6,
            Rule::Range => 7,
            Rule::FieldCover => 8,
            Rule::FieldValue => 9,
            Rule::Overlap => 10,
            Rule::TwoWrites => 11,
            Rule::TwoAccesses => 12,
            Rule::IndexNotField => 13,
            Rule::Ambiguous => 14,
            Rule::AbiRole => 15,
            Rule::StageOrder => 16,
            Rule::Unplaced => 17,
            Rule::Limit => 18,
        }
    }

    /// Its name in refusals.
    pub fn name(self) -> &'static [u8]
        ensures { result.now ≡ name_of self }
    {
        match self {
            Rule::Syntax => b"Syntax",
            Rule::Duplicate => b"Duplicate",
            Rule::Unknown => b"Unknown",
            Rule::Cyclic => b"Cyclic",
            Rule::Overflow => b"Overflow",
            Rule::Width => b"Width",
            Rule::Range => b"Range",
            Rule::FieldCover => b"FieldCover",
            Rule::FieldValue => b"FieldValue",
            Rule::Overlap => b"Overlap",
            Rule::TwoWrites => b"TwoWrites",
            Rule::TwoAccesses => b"TwoAccesses",
            Rule::IndexNotField => b"IndexNotField",
            Rule::Ambiguous => b"Ambiguous",
            Rule::AbiRole => b"AbiRole",
            Rule::StageOrder => b"StageOrder",
            Rule::Unplaced => b"Unplaced",
            Rule::Limit => b"Limit",
        }
    }
}
