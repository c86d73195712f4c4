// Mends a dump into a copy.
use crate::arguments::room_in;
use crate::buffers::digest;
use crate::put;
use crate::readers::print_checked;
use crate::room::print_within;
use console::count_changed;
use mending::Mended;

// The copy's length and the six counts of what was mended; how many bytes changed past the copy; its digest, and what the check says of it.
fn print_mended(rt: &HostRuntime, space: &[u8], mended: Mended) {
    let Mended { length, repairs } = mended;
    put!(rt; "{length} {} {} {}", repairs.missing, repairs.current, repairs.types);
    put!(rt; " {} {} {} {}", repairs.ids, repairs.packed, repairs.moved, count_changed(space, length));
    if let Some(copy) = space.get(..length) {
        put!(rt; " {}\n", digest(copy));
        print_checked(rt, copy);
    }
}

// What mending into so much room gives. Few calls need much space, and filling it takes time. No copy has more than 65,536 bytes.
pub(crate) fn print_mending(rt: &HostRuntime, dump: &[u8], arguments: &[u8]) {
    let room = room_in(arguments);
    let write = |out: &mut [u8]| mender::mend(dump, out);
    let print = |space: &[u8], mended| print_mended(rt, space, mended);
    if room > 4000 {
        print_within::<66000, _, _, _>(rt, room, write, print);
    } else {
        print_within::<4096, _, _, _>(rt, room, write, print);
    }
}
