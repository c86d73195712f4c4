// One line by position.
ghost use Rattle.std.specs.Prelude.{◌∷◌, [], length, option_copied};
ghost use Rattle.trace.specs.Layout.{header_of};
ghost use Rattle.trace.specs.Slots.{event_count};
ghost use Rattle.trace.specs.Table.{row16, row25};
ghost use Rattle.events.specs.Listing.{Gave, line_at, line_rows};
ghost use Rattle.listing.specs.Sources.{line_from};

use crate::checked;
use crate::source::Source;
use events::Reading;
use rows::Refusal;
use trace::Sound;
use walk::event_at;

// Checks 1 to 15, and a name file's 2 and 27, where one is given, then 25 and 16, and writes the line of the event at a position.
pub fn line<'a>(
    dump: &'a [u8],
    names: Option<&'a [u8]>,
    reading: Reading,
    position: usize,
    out: &mut [u8],
) -> Result<usize, Refusal>
    ensures { Gave (line_rows (option_copied names.entry) dump.now (header_of dump.now) reading position (length out.old)) (line_at (option_copied names.entry) dump.now (header_of dump.now) reading position) out.old out.new result }
{
    let Sound { header, events } = checked(dump, names, reading)?;
    let pairs = numbers::pairs();
    let source = Source {
        dump,
        header,
        events,
        names,
        reading,
        pairs: &pairs,
    };
    put_event(&source, position, out)
}

// Rows 25 and 16.
fn put_event(source: &Source, position: usize, out: &mut [u8]) -> Result<usize, Refusal>
    ensures { Gave (row25 position (event_count source.now.dump.now source.now.header) ∷ row16 (length (line_from source.now position)) (length out.old) ∷ []) (line_from source.now position) out.old out.new result }
{
    rows::row(25, source.events <= position, 0)?;
    let event = event_at(source.dump, source.header, source.names, position);
    let length = source.fit_event(position, event, out);
    rows::row(16, out.len() < length, 0)?;
    Ok(length)
}
