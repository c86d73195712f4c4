// Mends a dump (document 02, A2): writes a repaired copy into a second buffer, step by step in the order of the counts, and says what it did.
#![tactic(auto)]

mod packing;
mod steps;

ghost use Rattle.std.specs.Prelude.{[], ◌∷◌, ◌++◌, ◌≡◌, length};
ghost use Rattle.rows.specs.Lent.{left_in};
ghost use Rattle.rows.specs.Rows.{first_broken};
ghost use Rattle.trace.specs.Layout.{buffer_end, header_of};
ghost use Rattle.trace.specs.Table.{layout_rows, row16};
ghost use Rattle.mending.specs.Mending.{copy_of, mend_of, mending_rows, repairs_of};

use header::{header_of, layout_verdict};
use mending::{Mended, Repairs};
use packing::put_in_turn;
use rows::{Refusal, Verdict};
use steps::{copy_whole, current_mended, free_bad_types, mend_current, zero_no_ids};
use trace::Header;

// The copy is longer than its room.
#[tactic(auto, unfolding(trace::specs::Table::row16))]
fn row16(end: usize, room: usize) -> Verdict
    ensures { result ≡ first_broken (row16 end room ∷ []) }
{
    rows::row(16, room < end, 0)
}

// Checks 1 to 9 save 26 at the buffer end, then 16.
fn mend_verdict(header: Header, len: usize, room: usize) -> Verdict
    ensures { result ≡ first_broken (layout_rows header len ++ (row16 (buffer_end header) room ∷ [])) }
{
    layout_verdict(header, len)?;
    row16(words::offset_from(header.base, header.buffer_end), room)
}

// Makes the copy, which has just its room, and says what was mended.
fn repair(dump: &[u8], header: Header, copy: &mut [u8]) -> Repairs
    requires { (first_broken (layout_rows header (length dump.now)) ≡ Ok tt) × (length copy.old ≡ buffer_end header) }
    ensures { (result ≡ repairs_of dump.now header) × (copy.new ≡ copy_of dump.now header) }
{
    let missing = copy_whole(dump, header, copy);
    let current = mend_current(copy, header);
    let types = free_bad_types(copy, header);
    let ids = zero_no_ids(copy, header);
    let moved = put_in_turn(dump, current_mended(header), copy);
    Repairs {
        missing,
        current: usize::from(current),
        types,
        ids,
        packed: usize::from(moved.is_some()),
        moved: moved.unwrap_or(0),
    }
}

// Writes a repaired copy of a dump at the front of a second buffer, and gives its length and six counts of what was mended.
pub fn mend(dump: &[u8], copy: &mut [u8]) -> Result<Mended, Refusal>
    ensures { (result ≡ mend_of dump.now (length copy.old)) × (copy.new ≡ left_in copy.old (first_broken (mending_rows dump.now (header_of dump.now) (length copy.old))) (copy_of dump.now (header_of dump.now))) }
{
    let header = header_of(dump);
    let length = words::offset_from(header.base, header.buffer_end);
    mend_verdict(header, dump.len(), copy.len())?;
    let repairs = repair(dump, header, &mut copy[..length]);
    Ok(Mended { length, repairs })
}
