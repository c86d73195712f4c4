// Writes name files (document 02, A7), record by record.
#![tactic(auto)]

ghost use Rattle.std.specs.Prelude.{[], ◌∷◌, ◌≡◌, ◌+◌, ◌≤◌, ◌<◌, ◌^◌, length};
ghost use Rattle.naming.specs.Writing.{record_bytes, record_rows, record_size, row28};
ghost use Rattle.rows.specs.Rows.{first_broken};
ghost use Rattle.trace.specs.Table.{row16};
ghost use Rattle.writing.specs.Writing.{filing, left, said};

use namer::kind_of;
use naming::{NAME_START, RECORD_FRONT, Subject};
use rows::{Refusal, Verdict};
use trace::MOST_BYTES;
use words::{Order, put_half, put_padded, put_word};

// Writes one record, an event's or a thread's, at an offset, and gives its length: checks 28, 16.
pub fn write_name(
    names: &mut [u8],
    offset: usize,
    subject: Subject,
    number: u32,
    name: &[u8],
) -> Result<usize, Refusal>
    ensures { (result ≡ said (filing subject number name.now offset names.old)) × (names.new ≡ left (filing subject number name.now offset names.old) names.old) }
{
    let size = NAME_START + name.len();
    record_verdict(offset, size, names.len())?;
    put_record(&mut names[offset..offset + size], subject, number, name);
    Ok(size)
}

#[tactic(auto, unfolding(naming::specs::Writing::row28))]
fn row28(end: usize) -> Verdict
    ensures { result ≡ first_broken (row28 end ∷ []) }
{
    rows::row(28, MOST_BYTES < end, 0)
}

#[tactic(auto, unfolding(trace::specs::Table::row16))]
fn row16(end: usize, room: usize) -> Verdict
    ensures { result ≡ first_broken (row16 end room ∷ []) }
{
    rows::row(16, room < end, 0)
}

// Checks 28, 16. The end is not above the largest usize, which no buffer reaches.
fn record_verdict(offset: usize, size: usize, room: usize) -> Verdict
    requires { room < 2 ^ 63 }
    ensures { result ≡ first_broken (record_rows (offset + size) room) }
{
    let end = offset.saturating_add(size);
    row28(end)?;
    row16(end, room)
}

// Stores a record into just its room. Its name by no `copy_from_slice`, for which the library for C would ask for `memmove`.
fn put_record(room: &mut [u8], subject: Subject, number: u32, name: &[u8])
    requires { (length room.old ≡ record_size name.now) × (record_size name.now ≤ 65536) }
    ensures { room.new ≡ record_bytes subject number name.now }
{
    put_half(room, 0, Order::Little, (RECORD_FRONT + name.len()) as u16);
    put_half(room, 2, Order::Little, kind_of(subject));
    put_word(room, RECORD_FRONT, Order::Little, number);
    put_padded(room, NAME_START, name, name.len());
}
