//! Laws on loads, stores and the pages that are taken.
ghost use Rattle.std.specs.Prelude.{◌≡◌, ◌≢◌, ℕ, ◌+◌, ◌*◌, ◌%◌, ◌^◌, ◌<◌, ◌≤◌};
ghost use Rattle.std.specs.Ordering.{nat_cmp};
ghost use Rattle.std.specs.FinMap.{FinMap};
ghost use Rattle.vg_mem.specs.Bytes.{byte_in, loaded, stored};
ghost use Rattle.vg_mem.specs.Memory.{HasPages, HasRoom, KeepsPages, Memory, after_store, space_of, with_room};

/// A store keeps each byte that it doesn't name.
pub fn others_stay()
    ensures { (space at bytes value : ℕ) (m : FinMap nat_cmp ℕ) (q : ℕ) → ((k : ℕ) → k < bytes → q ≢ (at + k) % space)
        → byte_in (stored space at bytes value m) q ≡ byte_in m q }
{}

/// What was stored is loaded.
pub fn stored_is_loaded()
    ensures { (space at bytes value : ℕ) (m : FinMap nat_cmp ℕ) → bytes ≤ space
        → loaded (byte_in (stored space at bytes value m)) space at bytes ≡ value % 2 ^ (8 * bytes) }
{}

/// Pages for which room was made are taken, no call gives a page up, and where the pages of a range of addresses are
/// taken each access in it has room.
pub fn room_stays()
    ensures made { (m : Memory) (from to : ℕ) → HasPages (with_room m from to) from to }
    ensures room { (m : Memory) (from to : ℕ) → KeepsPages m (with_room m from to) }
    ensures store { (m : Memory) (at bytes value : ℕ) → KeepsPages m (after_store m at bytes value) }
    ensures pages { (old new : Memory) (from to : ℕ)
        → KeepsPages old new → HasPages old from to → HasPages new from to }
    ensures access { (m : Memory) (from to at bytes : ℕ) → HasPages m from to → from ≤ at → at + bytes ≤ to + 1
        → to < space_of m → HasRoom m at bytes }
{}
