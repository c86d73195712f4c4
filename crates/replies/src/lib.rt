// Answers a file of cases: each case's title, the digests of its buffer and of its name file, and what each call on them gives.
// A case in the file is a title's length (a byte, above 0), the title, the buffer, the name file (9 bytes each, see `read_buffer`, and the bytes at its front), and the calls.
// A call is a letter (see `answer`), its arguments' length (16 bits) and its arguments; a dot ends the case.
// Numbers in the file are little-endian. Past its end they read as 0, which is no title's length and no call's letter.
#![tactic(auto)]

mod arguments;
mod buffers;
mod fed;
mod mends;
mod readers;
mod room;
mod texts;
mod writers;

use arguments::{format_in, name_in, object_in, slot_in};
use buffers::{digest, print_hex};
use console::{fail, open_file, print_bytes, read_some, word_at};
use fed::print_fed;
use mends::print_mending;
use readers::{Source, print_checked, print_found, print_shown};
use std::fs::File;
use texts::{print_line, print_listing};
use writers::{print_outcome, write_filled};

// Nothing is said where a part of a reply cannot be printed.
macro_rules! put {
    ($rt:expr; $($part:tt)+) => {{
        let _ = print!($rt; $($part)+);
    }};
}

pub(crate) use put;

// More bytes than a buffer or a name file may have.
const SPACE: usize = 70000;

// A call on a case's buffers.
struct Call<'a> {
    letter: u8,
    arguments: &'a [u8],
}

// So many bytes of the file.
fn read_array<const N: usize>(file: &mut File) -> [u8; N] {
    let mut bytes = [0; N];
    read_some(file, &mut bytes, N);
    bytes
}

fn read_byte(file: &mut File) -> u8 {
    let [byte] = read_array::<1>(file);
    byte
}

fn read_half(file: &mut File) -> usize {
    usize::from(u16::from_le_bytes(read_array(file)))
}

fn read_word(file: &mut File) -> usize {
    u32::from_le_bytes(read_array(file)) as usize
}

fn read_call<'a>(file: &mut File, space: &'a mut [u8]) -> Option<Call<'a>> {
    let letter = read_byte(file);
    if letter <= b'.' {
        return None;
    }
    let size = read_half(file);
    let length = read_some(file, space, size);
    Some(Call {
        letter,
        arguments: &space[..length],
    })
}

// The check (c), the same in pieces (p), an event (e), a name (n), a line (l), the listing (a), the last four with the name file (E, N, L, A), mending into a copy (m),
// all bytes (b), or the outcome of a writing call: a record into the name file (r), formatting (f), recording a slot (w), registering (o) or removing (x).
// No other call changes the buffer.
fn answer(rt: &HostRuntime, call: Call<'_>, buffer: &mut [u8], names: &mut [u8]) {
    let Call { letter, arguments } = call;
    match letter {
        b'c' => print_checked(rt, buffer),
        b'p' => print_fed(rt, buffer, arguments),
        b'e' => print_shown(rt, Source::alone(buffer), arguments),
        b'E' => print_shown(rt, Source::with(buffer, names), arguments),
        b'n' => print_found(rt, Source::alone(buffer), arguments),
        b'N' => print_found(rt, Source::with(buffer, names), arguments),
        b'l' => print_line(rt, Source::alone(buffer), arguments),
        b'L' => print_line(rt, Source::with(buffer, names), arguments),
        b'a' => print_listing(rt, Source::alone(buffer), arguments),
        b'A' => print_listing(rt, Source::with(buffer, names), arguments),
        b'm' => print_mending(rt, buffer, arguments),
        b'b' => print_hex(rt, buffer),
        b'r' => print_outcome(rt, write_filled(names, arguments), names),
        b'f' => print_outcome(rt, formatter::format(buffer, format_in(arguments)), buffer),
        b'w' => print_outcome(rt, recorder::record(buffer, slot_in(arguments)), buffer),
        b'o' => print_outcome(
            rt,
            registrar::register(buffer, object_in(arguments), name_in(arguments)),
            buffer,
        ),
        b'x' => print_outcome(rt, registrar::remove(buffer, word_at(arguments, 0)), buffer),
        _ => print_outcome(rt, Ok(0), buffer),
    }
}

// No case has so many calls, and nothing says that a file ends, so the turns are counted.
fn answer_calls(rt: &HostRuntime, file: &mut File, buffer: &mut [u8], names: &mut [u8]) {
    put!(rt; " {} {}\n", digest(buffer), digest(names));
    for _ in 0..1024 {
        let mut space = [0u8; 1024];
        let Some(call) = read_call(file, &mut space) else {
            return;
        };
        answer(rt, call, buffer, names);
    }
}

// A title and a colon.
fn print_title(rt: &HostRuntime, file: &mut File, size: u8) {
    let mut title = [0u8; 255];
    let length = read_some(file, &mut title, usize::from(size));
    print_bytes(rt, &title[..length]);
    put!(rt; ":");
}

// A buffer by its length, the byte that fills it, how many bytes are given for its front, and these; none where it is too long.
fn read_buffer<'a>(file: &mut File, space: &'a mut [u8]) -> Option<&'a mut [u8]> {
    let length = read_word(file);
    space.fill(read_byte(file));
    let front = read_word(file);
    read_some(file, space, front);
    space.get_mut(..length)
}

// Answers a case, if there is one.
fn answer_case(rt: &HostRuntime, file: &mut File) -> Option<()> {
    let size = read_byte(file);
    if size == 0 {
        return None;
    }
    print_title(rt, file, size);
    let mut space = [0u8; SPACE];
    let buffer = read_buffer(file, &mut space);
    let mut names_space = [0u8; SPACE];
    let names = read_buffer(file, &mut names_space);
    if let (Some(buffer), Some(names)) = (buffer, names) {
        answer_calls(rt, file, buffer, names);
    }
    Some(())
}

// Nothing says that a file ends, so the turns are counted.
fn answer_cases(rt: &HostRuntime, file: &mut File) {
    for _ in 0..65536 {
        if answer_case(rt, file).is_none() {
            return;
        }
    }
}

// Answers each case of a file. Where it cannot be opened, a line on standard error says why.
pub fn answer_file(rt: &HostRuntime, path: &[u8]) {
    match open_file(rt, path) {
        Ok(mut file) => answer_cases(rt, &mut file),
        Err(error) => fail(rt, path, error),
    }
}
