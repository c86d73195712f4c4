// Lists a dump, with names from a name file where one is given.
ghost use Rattle.std.specs.Prelude.{◌<◌, ◌^◌};

use crate::shared::{Fault, argument, argument_count, is_dash, path_at, read_file};
use arguments::number_in;
use console::print_bytes;
use events::Reading;

// Room for 2,046 events at 774 bytes each, six for each of 64 bytes of a name and 65 more: any listing without a name file fits, and none is measured first.
// With one, any single line fits: six bytes for each of twice 65,528 and 65 more are 786,726.
const ROOM: usize = 1583604;

// The refusal of a listing that is longer than the room for it.
const NO_ROOM: u32 = 16;

// The lines one by one: their listing is longer than the space for it, and each of them is not.
fn print_lines(
    rt: &HostRuntime,
    dump: &[u8],
    names: Option<&[u8]>,
    reading: Reading,
    out: &mut [u8],
) {
    for position in 0..2046 {
        let Ok(length) = listing::line(dump, names, reading, position, out) else {
            return;
        };
        if let Some(line) = out.get(..length) {
            print_bytes(rt, line);
        }
    }
}

// The room is a parameter, so that no proof computes with so many bytes.
fn print_listing<const N: usize>(
    rt: &HostRuntime,
    dump: &[u8],
    names: Option<&[u8]>,
    reading: Reading,
)
    requires { N < 2 ^ 32 }
{
    let mut space = [0u8; N];
    match listing::listing(dump, names, reading, &mut space) {
        Ok(length) => {
            if let Some(text) = space.get(..length) {
                print_bytes(rt, text);
            }
        }
        Err(refusal) if refusal.number == NO_ROOM => print_lines(
            rt, dump, names, reading, &mut space,
        ),
        Err(refusal) => {
            let _ = println!(rt; "{refusal}");
        }
    }
}

// The bytes of the file at the path in an argument. None, and a line on standard error, where they cannot be read. The space for the path is let go again.
#[inline(never)]
fn read_at<'a>(rt: &HostRuntime, i: usize, space: &'a mut [u8]) -> Option<&'a [u8]> {
    let mut path_space = [0u8; 4096];
    let path = argument(rt, i, &mut path_space)?;
    match read_file(rt, path, space) {
        Ok(bytes) => Some(bytes),
        Err(failure) => {
            failure.tell(rt);
            None
        }
    }
}

// The space for a name file is made here, so that a listing without one does not take it.
#[inline(never)]
fn list_named(rt: &HostRuntime, dump: &[u8], reading: Reading) {
    let mut space = [0u8; 65537];
    if let Some(names) = read_at(rt, 5, &mut space) {
        print_listing::<ROOM>(rt, dump, Some(names), reading);
    }
}

// Nothing is listed where one of the files cannot be read.
fn list_files(rt: &HostRuntime, is_named: bool, reading: Reading) {
    let mut space = [0u8; 65537];
    let Some(dump) = read_at(rt, 1, &mut space) else {
        return;
    };
    if is_named {
        list_named(rt, dump, reading);
    } else {
        print_listing::<ROOM>(rt, dump, None, reading);
    }
}

// The number in an argument.
fn number_at(rt: &HostRuntime, i: usize) -> Option<u64> {
    let mut space = [0u8; 4096];
    number_in(argument(rt, i, &mut space)?, u64::MAX)
}

fn word_at(rt: &HostRuntime, i: usize) -> Option<u32> {
    u32::try_from(number_at(rt, i)?).ok()
}

// The space for an argument is let go before the spaces for the files are made.
#[inline(never)]
fn reading_of(rt: &HostRuntime) -> Result<Reading, Fault> {
    Ok(Reading {
        rate: word_at(rt, 2).ok_or(Fault::Number {
            called: "RATE",
            least: 1,
            most: 4294967295,
        })?,
        unit: word_at(rt, 3).ok_or(Fault::Number {
            called: "UNIT",
            least: 0,
            most: 16777215,
        })?,
        serial: number_at(rt, 4).ok_or(Fault::Number {
            called: "SERIAL",
            least: 0,
            most: 1099511627776,
        })?,
    })
}

// The path of NAMES, where it is given.
fn names_path_at<'a>(
    rt: &HostRuntime,
    count: usize,
    space: &'a mut [u8],
) -> Result<Option<&'a [u8]>, Fault> {
    if count < 6 {
        return Ok(None);
    }
    path_at(rt, 5, "NAMES", space).map(Some)
}

// What is wrong with the paths. Standard input is one file: it cannot be both.
#[inline(never)]
fn check_paths(rt: &HostRuntime, count: usize) -> Result<(), Fault> {
    let mut space = [0u8; 4096];
    let path = path_at(rt, 1, "FILE", &mut space)?;
    let mut names_space = [0u8; 4096];
    let names_path = names_path_at(rt, count, &mut names_space)?;
    if is_dash(path) && names_path.is_some_and(|names| is_dash(names)) {
        return Err(Fault::TwoDashes);
    }
    Ok(())
}

pub(crate) fn list_by_arguments(rt: &HostRuntime) -> Result<(), Fault> {
    let count = argument_count(rt);
    if count != 5 && count != 6 {
        return Err(Fault::Usage(
            "lepsaino FILE RATE UNIT SERIAL [NAMES], or lepsaino mend FILE COPY",
        ));
    }
    let reading = reading_of(rt)?;
    check_paths(rt, count)?;
    list_files(rt, count == 6, reading);
    Ok(())
}
