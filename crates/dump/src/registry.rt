// The registry: a search of its entries.
ghost use Rattle.std.specs.Prelude.{◌≡◌, ◌&&◌, false, not, ℕ, ◌≤◌, ◌<◌, ◌^◌, eqb};
ghost use Rattle.rows.specs.Lowest.{lowest};
ghost use Rattle.trace.specs.Layout.{entry_count};
ghost use Rattle.trace.specs.Registry.{is_in_use, is_allowed_type, is_thread_at, kind_at, pointer_at, type_at, is_wanted_at, is_wanted};

use header::geometry_of;
use rows::both;
use trace::{HEADER_SIZE, Header, ThreadKind, Wanted};
use words::Order;

#[tactic(auto, unfolding(trace::specs::Registry::is_in_use))]
fn in_use(dump: &[u8], at: usize) -> bool
    ensures { result ≡ is_in_use dump.now at }
{
    words::byte(dump, at, 0) != 1
}

// Whether an object may have this type.
#[tactic(auto, unfolding(trace::specs::Registry::is_allowed_type))]
pub fn allowed_type(t: u8) -> bool
    ensures { result ≡ is_allowed_type t }
{
    (1..=14).contains(&t) || (21..=28).contains(&t)
}

fn has_pointer(dump: &[u8], at: usize, order: Order, pointer: u32) -> bool
    requires { at < 2 ^ 40 }
    ensures { result ≡ eqb (pointer_at order dump.now at) pointer }
{
    words::word(dump, at + 4, order) == pointer
}

// Whether the entry at a place is in use and has a type that is not allowed. The tests have no branch between them: a search of many entries is faster so.
pub fn is_bad_type(dump: &[u8], at: usize) -> bool
    ensures { result ≡ (is_in_use dump.now at && not (is_allowed_type (type_at dump.now at))) }
{
    both(in_use(dump, at), !allowed_type(words::byte(dump, at, 1)))
}

// Whether the entry at a place is a thread's, live or gone.
pub fn is_thread(dump: &[u8], at: usize) -> bool
    ensures { result ≡ is_thread_at dump.now at }
{
    words::byte(dump, at, 1) == 1
}

// Which kind of thread has the entry at a place, where it is a thread's.
pub fn kind_at(dump: &[u8], at: usize) -> ThreadKind
    ensures { result ≡ kind_at dump.now at }
{
    if in_use(dump, at) {
        ThreadKind::Live
    } else {
        ThreadKind::Gone
    }
}

// The pointer comes first: most entries have another.
#[tactic(auto, unfolding(trace::specs::Registry::is_wanted_at))]
fn is_wanted(dump: &[u8], at: usize, order: Order, wanted: Wanted) -> bool
    requires { at < 2 ^ 40 }
    ensures { result ≡ is_wanted_at wanted order dump.now at }
{
    match wanted {
        Wanted::BadType => is_bad_type(dump, at),
        Wanted::Free => !in_use(dump, at),
        Wanted::InUse(pointer) => has_pointer(dump, at, order, pointer) && in_use(dump, at),
        Wanted::Thread { kind, pointer } => {
            has_pointer(dump, at, order, pointer)
                && kind_at(dump, at) == kind
                && is_thread(dump, at)
        }
    }
}

// How many entries, from the first on, are not wanted, up to the first that is, of those that lie within: what is read of each is a part of the dump of known length.
#[tactic(auto, using(header::proofs::Steps::entries_are, crate::proofs::Entries::entry_within))]
fn passed_over(dump: &[u8], header: Header, wanted: Wanted) -> usize
    ensures most { result ≤ entry_count header }
    ensures none { (k : ℕ) → k < result → is_wanted wanted dump.now header k ≡ false }
{
    let geometry = geometry_of(header);
    let size = geometry.entry_size;
    let order = header.order;
    let within = geometry
        .entries
        .min(dump.len().saturating_sub(HEADER_SIZE) / size);
    for i in 0..within {
        let at = HEADER_SIZE + i * size;
        if is_wanted(&dump[at..at + 8], 0, order, wanted) {
            return i;
        }
    }
    within
}

// The lowest entry that is wanted, or the number of entries where there is none.
#[tactic(auto, using(header::proofs::Steps::entry_below, header::proofs::Steps::entries_are, rows::proofs::Lowest::lowest_none, rows::proofs::Lowest::lowest_at))]
pub fn lowest_entry(dump: &[u8], header: Header, wanted: Wanted) -> usize
    ensures { result ≡ lowest (is_wanted wanted dump.now header) (entry_count header) }
{
    let geometry = geometry_of(header);
    let order = header.order;
    for i in passed_over(dump, header, wanted)..geometry.entries {
        if is_wanted(dump, HEADER_SIZE + i * geometry.entry_size, order, wanted) {
            return i;
        }
    }
    geometry.entries
}
