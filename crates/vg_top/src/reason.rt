use vg_rule::Rule;

/// Why a description is refused. A place is the offset of a byte, from 0.
///
/// Each reason has a line of its own (`specs/Reason.antt`). A reason that holds texts, as the names of two
/// instructions, is one more case, so a reason isn't `Copy`.
#[derive(Debug, Drop)]
pub enum Reason {
    /// This is the first rule that the text breaks, and the first place where it does; or the text lacks what the
    /// command needs, told by the rule on that at the end of the text.
    Broken { rule: Rule, at: usize },
    /// No rule is broken, but the first thing that isn't built yet begins here.
    NotBuilt { at: usize },
}
