// The calls that read a dump.
ghost use Rattle.std.specs.Prelude.{◌≡◌, length};
ghost use Rattle.events.specs.Events.{event_of};
ghost use Rattle.events.specs.Listing.{line_at, line_rows, listing_rows, listing_text};
ghost use Rattle.text.specs.Numbers.{number as number_text};
ghost use Rattle.text.specs.Output.{Put, printed};
ghost use Rattle.trace.specs.Check.{check_of};
ghost use Rattle.trace.specs.Layout.{header_of};
ghost use Rattle.trace.specs.Names.{find_name};
ghost use Rattle.lepsaino_c.specs.Answers.{GaveNumbers, check_answer, event_answer, name_answer};

use crate::answers::{Answer, CheckAnswer, EventAnswer, NameAnswer};
use events::Reading;

// Checks a dump.
pub fn lepsaino_check(dump: &[u8]) -> CheckAnswer
    ensures { result ≡ check_answer (check_of dump.now) }
{
    CheckAnswer::from(dump::check(dump))
}

// One event by position.
pub fn lepsaino_event(dump: &[u8], position: usize) -> EventAnswer
    ensures { result ≡ event_answer (event_of None dump.now position) }
{
    EventAnswer::from(walk::event(dump, None, position))
}

// The name of the thread with a pointer.
pub fn lepsaino_find_name(dump: &[u8], pointer: u32) -> NameAnswer
    ensures { result ≡ name_answer (find_name dump.now pointer) }
{
    NameAnswer::from(finder::find_name(dump, None, pointer))
}

// The line of one event.
pub fn lepsaino_line(dump: &[u8], reading: Reading, position: usize, out: &mut [u8]) -> Answer
    ensures { GaveNumbers (line_rows None dump.now (header_of dump.now) reading position (length out.old)) (line_at None dump.now (header_of dump.now) reading position) out.old out.new result }
{
    Answer::from(listing::line(dump, None, reading, position, out))
}

// The whole listing.
pub fn lepsaino_listing(dump: &[u8], reading: Reading, out: &mut [u8]) -> Answer
    ensures { GaveNumbers (listing_rows None dump.now (header_of dump.now) reading (length out.old)) (listing_text None dump.now (header_of dump.now) reading) out.old out.new result }
{
    Answer::from(listing::listing(dump, None, reading, out))
}

// The text of a number.
pub fn lepsaino_number(out: &mut [u8], number: u64) -> usize
    ensures { Put (printed (number_text number) out.old) out.old out.new result }
{
    numbers::put_number(out, number)
}
