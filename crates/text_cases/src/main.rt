// Prints the numbers and the lines of the file `cases`.
// A number's case is an n and 64 bits; it gives the number's text, its length, and what comes back through a double.
// A line's case is an l, the line's numbers in their order, whether it has the event's name, and that name's length and bytes, whether it has a thread's name and
// whether that is gone, and its length and bytes; it gives the line, and then six numbers that say what it does with too little room, with just enough and with plenty.
// Numbers in the file are little-endian.
#![tactic(auto)]

ghost use Rattle.std.specs.Prelude.{◌≤◌, ◌<◌, ◌^◌};

use console::{count_changed, fail, number_at, open_file, print_bytes, read_some, word_at};
use std::fs::File;
use text::{Context, Info, Line};
use words::Order;

// The text that a printer answered with its length.
fn print_text(rt: &HostRuntime, out: &[u8], length: usize) {
    if let Some(text) = out.get(..length) {
        print_bytes(rt, text);
    }
}

fn print_number(rt: &HostRuntime, x: u64) {
    let mut out = [0u8; 22];
    let length = numbers::put_number(&mut out, x);
    print_text(rt, &out, length);
    let _ = println!(rt;
        " {} {}",
        numbers::number_length(x),
        doubles::through_double(x)
    );
}

// The line into so much room, where the space has it.
fn put_within(
    out: &mut [u8],
    room: usize,
    line: Line,
    title: Option<Option<&[u8]>>,
    name: Option<&[u8]>,
) -> Option<usize> {
    let out = out.get_mut(..room)?;
    Some(lines::put_line(out, line, title, name))
}

// The line's length, what one byte less of room takes and changes, and what just enough takes and changes past it. No room takes 0.
fn print_close(rt: &HostRuntime, line: Line, title: Option<Option<&[u8]>>, name: Option<&[u8]>) {
    let mut out = [b'.'; 4096];
    let size = lines::line_length(line, title, name);
    let short = put_within(&mut out, size.saturating_sub(1), line, title, name).unwrap_or(0);
    let _ = print!(rt; "{size} {short} {}", count_changed(&out, 0));
    let full = put_within(&mut out, size, line, title, name).unwrap_or(0);
    let _ = print!(rt; " {full} {}", count_changed(&out, size));
}

// The line, and how many bytes changed past it.
fn print_line(rt: &HostRuntime, line: Line, title: Option<Option<&[u8]>>, name: Option<&[u8]>) {
    let mut out = [b'.'; 4096];
    let length = lines::put_line(&mut out, line, title, name);
    print_text(rt, &out, length);
    print_close(rt, line, title, name);
    let _ = println!(rt; " {}", count_changed(&out, length));
}

fn title_of(number: u8, name: &[u8]) -> Option<Option<&[u8]>> {
    match number {
        0 => None,
        1 => Some(None),
        _ => Some(Some(name)),
    }
}

fn context_of(number: u8) -> Context {
    match number {
        0 => Context::Init,
        1 => Context::Isr,
        _ => Context::Thread,
    }
}

fn info_in(case: &[u8]) -> Info {
    Info {
        first: word_at(case, 38),
        second: word_at(case, 42),
        third: word_at(case, 46),
        fourth: word_at(case, 50),
    }
}

fn line_in(case: &[u8], gone: bool) -> Line {
    Line {
        key: number_at(case, 1, 5),
        ticks: number_at(case, 9, 13),
        us: number_at(case, 17, 21),
        id: word_at(case, 25),
        ptr: word_at(case, 29),
        by: context_of(words::byte(case, 33, 0)),
        gone,
        field: word_at(case, 34),
        info: info_in(case),
    }
}

// A line's case at the front of the bytes, and how long it is: the event's name behind the numbers, and then the thread's.
fn print_line_case(rt: &HostRuntime, case: &[u8]) -> usize
    ensures { (1 ≤ result) × (result < 2 ^ 18) }
{
    let middle = 57 + words::half(case, 55, Order::Little) as usize;
    let is_named = words::byte(case, middle, 0) != 0;
    let gone = words::byte(case, middle, 1) != 0;
    let start = middle + 4;
    let end = start + words::half(case, middle + 2, Order::Little) as usize;
    if end <= case.len() {
        let line = line_in(case, gone);
        let title = title_of(words::byte(case, 54, 0), &case[57..middle]);
        print_line(rt, line, title, is_named.then_some(&case[start..end]));
    }
    end
}

// A case at the front of the bytes, and how long it is.
fn print_case(rt: &HostRuntime, case: &[u8]) -> usize
    ensures { (1 ≤ result) × (result < 2 ^ 18) }
{
    if words::byte(case, 0, 0) == b'n' {
        print_number(rt, number_at(case, 1, 5));
        return 9;
    }
    print_line_case(rt, case)
}

fn print_cases(rt: &HostRuntime, cases: &[u8]) {
    let mut at = 0;
    // No range counts the cases: where one ends is read from it.
    while at < cases.len() {
        at += print_case(rt, &cases[at..]);
    }
}

// The cases of an open file, so far as there is room for them.
fn print_file(rt: &HostRuntime, file: &mut File) {
    let mut space = [0u8; 131072];
    let length = read_some(file, &mut space, 131072);
    print_cases(rt, &space[..length]);
}

fn main(rt: HostRuntime) {
    let path = b"cases";
    match open_file(&rt, path) {
        Ok(mut file) => print_file(&rt, &mut file),
        Err(error) => fail(&rt, path, error),
    }
}
