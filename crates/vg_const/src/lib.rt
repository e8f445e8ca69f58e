//! Folds a description: asks its rules of names, constants and sizes, and works out what stands in place of its names.
//!
//! In goes a description as its tree. Out comes `vg_inline::Plain`, the tree with what its constants are worth, what its
//! aliases stand for and how many nodes the bodies of its functions have, or the first rule that the description breaks, with
//! the first place in the text where it does: `vg_rule::DescFault`. The rules are asked in their order: nothing is defined
//! twice, all names are known, nothing uses itself, no operator leaves the whole numbers, and no behaviour has too many nodes.
//!
//! The theorem stands on [`fold`]: `places_of` of vg_inline's `specs/Rules.antt` says at which places a description breaks
//! each rule, and `breach_of` which it breaks first, and where. `fold` answers a description that breaks none, and refuses any
//! other by that rule at that place, unless memory runs out. That a description keeps all rules or breaks exactly one of them
//! first, at one place, is the law of vg_rule.
//!
//! Asking the rules takes near linear time in the text where it is accepted: bodies and behaviours are counted, and no tree of
//! them is made. Constants, aliases and functions are worked out once, behind what they use; a chain of them may be as long
//! as the text.
//!
//! Of `constant a = a` among the items the answer is `Cyclic`, at the first `a`:
//!
//! ```
//! let plain = vg_const::fold(alloc, description)?;
//! ```
#![tactic(auto)]

mod folding;

pub use folding::fold;
