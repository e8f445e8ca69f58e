//! Moves that happen all at once, as single copies.
//!
//! A move copies what a place holds to another place. Moves that happen at once all read before any of them writes,
//! as the phis at the head of a block do. A machine makes one copy after the other, so [`order`] puts the copies into
//! an order in which no copy destroys what a later one reads, and where moves form a ring it takes a detour over one
//! spare place.
//!
//! In: the moves as pairs (source, destination), and the spare. Out: the copies as pairs of the same kind, the first
//! one first. The condition is that destinations differ, and that the spare is an end of no move.
//!
//! The theorem (`specs/AtOnce.antt`, the record `DoesAtOnce`): after the copies each destination holds what its source
//! held before; all places but the spare and the destinations hold what they held before; each copy reads what a move
//! reads, or the spare, and writes what a move writes, or the spare; and twice the number of copies is at most three
//! times the number of moves to other places. A move to its own place gives no copy.
//!
//! A move waits while another one that waits reads its destination. So a move that nothing waits for is done, and then
//! the one into the place that it read may have nothing to wait for. When all moves that are left wait, each destination
//! is read by exactly one of them, and they form rings. A ring is opened by a copy of one destination to the spare.
//!
//! `order` takes time linear in the number of moves, but for look-ups in one hash table, and so much memory.
//!
//! ```text
//! order(alloc, &[(a, b), (b, a)], spare)?     // (b, spare), (a, b), (spare, a)
//! ```
#![tactic(auto)]

mod ordering;
mod pending;
mod schedule;

pub use ordering::order;
