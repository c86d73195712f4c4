// A line or the listing.
use crate::arguments::{position_in, reading_in, room_in};
use crate::put;
use crate::readers::Source;
use crate::room::print_within;
use console::{count_changed, print_bytes};
use rows::Refusal;

// The text's length; how many bytes changed past it; and the text.
fn print_written(rt: &HostRuntime, space: &[u8], length: usize) {
    put!(rt; "{length} {}\n", count_changed(space, length));
    if let Some(text) = space.get(..length) {
        print_bytes(rt, text);
    }
}

// Few calls need much space, and filling it takes the most time of a run. The longest listing without a name file is that of 2,046 events.
fn print_text<W: FnOnce(&mut [u8]) -> Result<usize, Refusal>>(rt: &HostRuntime, room: u32, write: W)
    requires { W.IsAlwaysCallable write }
{
    let print = |space: &[u8], length| print_written(rt, space, length);
    if room > 4000 {
        print_within::<1600000, _, _, _>(rt, room, write, print);
    } else {
        print_within::<4096, _, _, _>(rt, room, write, print);
    }
}

pub(crate) fn print_line(rt: &HostRuntime, source: Source<'_>, arguments: &[u8]) {
    let Source { dump, names } = source;
    let reading = reading_in(arguments);
    let position = position_in(arguments);
    print_text(rt, room_in(arguments), |out| {
        listing::line(dump, names, reading, position, out)
    });
}

pub(crate) fn print_listing(rt: &HostRuntime, source: Source<'_>, arguments: &[u8]) {
    let Source { dump, names } = source;
    let reading = reading_in(arguments);
    print_text(rt, room_in(arguments), |out| {
        listing::listing(dump, names, reading, out)
    });
}
