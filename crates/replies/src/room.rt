// What a call writes into room that is part of more space, so that a byte changed past it shows.
ghost use Rattle.std.specs.Prelude.{◌<◌, ◌^◌};

use crate::put;
use console::count_changed;
use rows::Refusal;

// Of the space, which has dots only, the room and 64 bytes more are looked at. A refusal is printed with how many of these changed.
pub(crate) fn print_within<
    const N: usize,
    T,
    W: FnOnce(&mut [u8]) -> Result<T, Refusal>,
    P: FnOnce(&[u8], T),
>(rt: &HostRuntime, room: u32, write: W, print: P)
    requires fits { N < 2 ^ 32 }
    requires writes { W.IsAlwaysCallable write }
    requires prints { P.IsAlwaysCallable print }
{
    let mut space = [b'.'; N];
    let room = room as usize;
    if let Some(space) = space.get_mut(..room + 64) {
        match write(&mut space[..room]) {
            Err(refusal) => put!(rt; "{refusal} {}\n", count_changed(space, 0)),
            Ok(written) => print(space, written),
        }
    }
}
