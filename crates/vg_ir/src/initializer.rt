use crate::{Name, Number, Spot, Text, TypeAt};
use sqlite_items::Items;

/// What a global's bytes are at the start. `at` is the place of its first lexeme.
#[derive(Drop)]
pub enum Initializer {
    Number {
        number: Number,
        at: Spot,
    },
    True {
        at: Spot,
    },
    False {
        at: Spot,
    },
    Null {
        at: Spot,
    },
    /// `zeroinitializer`
    Zero {
        at: Spot,
    },
    Undef {
        at: Spot,
    },
    Poison {
        at: Spot,
    },
    /// `c".."`: the bytes that its escapes stand for.
    Text {
        text: Text,
        at: Spot,
    },
    /// The address of a global.
    Global {
        name: Name,
        at: Spot,
    },
    /// `[T INIT, ..]`
    Array {
        elements: Items<(TypeAt, Initializer)>,
        at: Spot,
    },
    /// `{ T INIT, .. }`
    Struct {
        fields: Items<(TypeAt, Initializer)>,
        at: Spot,
    },
}
