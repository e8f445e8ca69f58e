//! The rules of descriptions: their numbers, names and order, and which is broken first, for any list of them.
//!
//! [`Rule`] has the eighteen rules, with the number and the name that a refusal prints. [`Breach`] is a rule with the
//! place in the text where it is broken, and [`DescFault`] what a call answers that asks some of them: a rule that is
//! broken, at its place, or that memory ran out. [`DescFault::breach`] gives the rule and the place of a fault.
//!
//! `specs/Order.antt` has the order in which the rules are asked, and `specs/Breach.antt` says once what a call that asks
//! some rules in an order answers, whatever the places at which each is broken: `first_breach` is the first rule that has a
//! place, at its first place. The theorem is [`one_answer`], that a description keeps all rules of a list or breaks
//! exactly one of them first, at one place; [`are_first`] says that `first_breach` is that one; and [`are_asked_on`] what
//! it is of rules that are asked in two steps. Whoever adds a rule gives its places, and has these laws.
//!
//! Of the bytes `constant a = a` the rule `Cyclic` is broken at byte 9:
//!
//! ```
//! let fault = DescFault::Cyclic { at: 9 };
//! assert_eq!(rt; fault.breach().map(|breach| breach.rule.number()), Some(4));
//! ```
#![tactic(auto)]

mod breach;
mod desc_fault;
mod laws;
mod rule;

pub use breach::Breach;
pub use desc_fault::DescFault;
pub use laws::{are_asked_on, are_first, one_answer};
pub use rule::Rule;
