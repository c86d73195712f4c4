// The calls that read a dump with a name file. The reading comes before the names: so it is never split between registers and the stack.
ghost use Rattle.std.specs.Prelude.{◌≡◌, length};
ghost use Rattle.events.specs.Events.{event_of};
ghost use Rattle.events.specs.Listing.{line_at, line_rows, listing_rows, listing_text};
ghost use Rattle.naming.specs.Finding.{find_name_with};
ghost use Rattle.trace.specs.Layout.{header_of};
ghost use Rattle.lepsaino_c.specs.Answers.{GaveNumbers, event_answer, name_answer};

use crate::answers::{Answer, EventAnswer, NameAnswer};
use events::Reading;

// One event by position.
pub fn lepsaino_event_with_names(dump: &[u8], names: &[u8], position: usize) -> EventAnswer
    ensures { result ≡ event_answer (event_of (Some names.now) dump.now position) }
{
    EventAnswer::from(walk::event(dump, Some(names), position))
}

// The name of the thread with a pointer.
pub fn lepsaino_find_name_with_names(dump: &[u8], names: &[u8], pointer: u32) -> NameAnswer
    ensures { result ≡ name_answer (find_name_with (Some names.now) dump.now pointer) }
{
    NameAnswer::from(finder::find_name(dump, Some(names), pointer))
}

// The line of one event.
pub fn lepsaino_line_with_names<'a>(
    dump: &'a [u8],
    reading: Reading,
    position: usize,
    names: &'a [u8],
    out: &mut [u8],
) -> Answer
    ensures { GaveNumbers (line_rows (Some names.now) dump.now (header_of dump.now) reading position (length out.old)) (line_at (Some names.now) dump.now (header_of dump.now) reading position) out.old out.new result }
{
    Answer::from(listing::line(dump, Some(names), reading, position, out))
}

// The whole listing.
pub fn lepsaino_listing_with_names<'a>(
    dump: &'a [u8],
    reading: Reading,
    names: &'a [u8],
    out: &mut [u8],
) -> Answer
    ensures { GaveNumbers (listing_rows (Some names.now) dump.now (header_of dump.now) reading (length out.old)) (listing_text (Some names.now) dump.now (header_of dump.now) reading) out.old out.new result }
{
    Answer::from(listing::listing(dump, Some(names), reading, out))
}
