// What the programs share: bytes on standard output, a file by its name, bytes from it and numbers in them, what is said where a call on it fails, and how many bytes changed.
#![tactic(auto)]

ghost use Rattle.std.specs.Prelude.{◌≡◌, ◌+◌, ◌*◌, ◌≤◌, length, take, MatchResult, IfOk, IsUtf8};
ghost use Rattle.std.specs.Io.KnownBytes.{Consumes};
ghost use Rattle.words.specs.Words.{word_at};
ghost use Rattle.words.specs.declared.Order.TheVariants.{Little};
ghost use Rattle.std.specs.Counts.{IsPrefixLen};
ghost use Rattle.console.specs.Changed.{changed_from};

use std::fmt::Write;
use std::fs::File;
use std::io::Read;
use std::{fmt, io};
use words::Order;

// Bytes that need not be text. Where they cannot all be written, a line on standard error says why.
pub fn print_bytes(rt: &HostRuntime, bytes: &[u8]) {
    if let Err(error) = rt.write_all(bytes) {
        fail(rt, b"standard output", error);
    }
}

// The front of an error's text.
#[derive(Drop)]
struct Reason {
    bytes: [u8; 256],
    length: usize,
    ghost within: { length ≤ 256 },
}

impl Write for Reason {
    fn write_str(&mut self, s: &str) -> fmt::Result {
        let rest = &mut self.bytes[self.length..];
        let more = rest.len().min(s.len());
        rest[..more].copy_from_slice(&s.as_bytes()[..more]);
        self.length += more;
        Ok(())
    }
}

// An error of the system ends in its number, which stands in brackets and is not printed.
fn without_number(text: &[u8]) -> &[u8] {
    match text.iter().rposition(|b| *b == b'(') {
        Some(k) if k > 0 => &text[..k - 1],
        _ => text,
    }
}

// A line on standard error: what failed, a colon and the system's words for it.
pub fn fail(rt: &HostRuntime, what: &[u8], error: io::Error) {
    let mut reason = Reason {
        bytes: [0; 256],
        length: 0,
    };
    let _ = write!(reason, "{error}");
    let _ = rt.stderr().write_all(what);
    let _ = rt.stderr().write_all(b": ");
    let _ = rt
        .stderr()
        .write_all(without_number(&reason.bytes[..reason.length]));
    let _ = rt.stderr().write_all(b"\n");
}

// A path is text to std, so other bytes name no file.
pub fn path_of(bytes: &[u8]) -> io::Result<&str>
    ensures { MatchResult result (λ path. path.now ≡ bytes.now) (λ _. IsUtf8 bytes.now → ⊥) }
{
    str::from_utf8(bytes).map_err(|_| io::Error::new(
        io::ErrorKind::InvalidInput,
        "the name is not UTF-8",
    ))
}

// The file at a path, to be read.
pub fn open_file(rt: &HostRuntime, path: &[u8]) -> io::Result<File>
    ensures { IfOk result (λ _. IsUtf8 path.now) }
{
    File::open(rt, path_of(path)?)
}

// Reads until there is no more room, the file ends or a read fails, and says how many bytes came.
fn read_full<R: Read>(file: &mut R, bytes: &mut [u8]) -> usize
    ensures within { IsPrefixLen result bytes.new }
    ensures came { Consumes (R.remaining file.old) (R.remaining file.new) (take result bytes.new) }
{
    let mut done = 0;
    // No range counts the turns: how far each goes the read before it says.
    while done < bytes.len() {
        match file.read(&mut bytes[done..]) {
            Ok(more) if more > 0 => done += more,
            _ => return done,
        }
    }
    done
}

// Reads so many bytes, if there is room for them, and says how many came. Those are the file's next, where it is known what it has.
pub fn read_some<R: Read>(file: &mut R, bytes: &mut [u8], size: usize) -> usize
    ensures within { IsPrefixLen result bytes.new }
    ensures came { Consumes (R.remaining file.old) (R.remaining file.new) (take result bytes.new) }
{
    if bytes.len() < size {
        return 0;
    }
    read_full(file, &mut bytes[..size])
}

// The little-endian number of 32 bits at a place.
pub fn word_at(bytes: &[u8], at: usize) -> u32
    ensures { result ≡ word_at Little bytes.now at }
{
    words::word(bytes, at, Order::Little)
}

// The number whose low half is at one place and whose high half is at another.
pub fn number_at(bytes: &[u8], low: usize, high: usize) -> u64
    ensures { result ≡ word_at Little bytes.now high * 4294967296 + word_at Little bytes.now low }
{
    u64::from(word_at(bytes, high)) * 4294967296 + u64::from(word_at(bytes, low))
}

// How many bytes from a place on are not a dot.
pub fn count_changed(bytes: &[u8], from: usize) -> usize
    ensures { result ≡ changed_from bytes.now from }
{
    let mut changed = 0;
    for b in bytes.get(from..).unwrap_or(&[]) {
        if *b != b'.' {
            changed += 1;
        }
    }
    changed
}
