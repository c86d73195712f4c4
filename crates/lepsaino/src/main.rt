// lepsaino FILE RATE UNIT SERIAL [NAMES]: prints the listing of a dump, with names from a name file where one is given, or the refusal's number, a space and its place
// as one line. FILE or NAMES may be a dash.
// A usage or file error is one line on standard error, and nothing on standard output. With `mend` first it mends a dump instead.
#![tactic(auto)]

mod lists;
mod mends;
mod shared;

use lists::list_by_arguments;
use mends::mend_by_arguments;
use shared::{Fault, argument};

// Whether the first argument asks for mending.
fn is_to_mend(rt: &HostRuntime) -> bool {
    let mut space = [0u8; 4096];
    argument(rt, 1, &mut space).is_some_and(|first| first == b"mend".as_slice())
}

fn run(rt: &HostRuntime) -> Result<(), Fault> {
    if is_to_mend(rt) {
        return mend_by_arguments(rt);
    }
    list_by_arguments(rt)
}

fn main(rt: HostRuntime) {
    if let Err(fault) = run(&rt) {
        let _ = eprintln!(rt; "{fault}");
    }
}
