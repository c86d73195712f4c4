// Prints names: bytes escaped as document 01 says, in quotes; null where there is no name.
#![tactic(auto)]

ghost use Rattle.std.specs.Prelude.{◌≡◌, ◌≤◌, ◌<◌, ◌^◌, leb, length, option_copied};
ghost use Rattle.text.specs.Names.{escape, escaped, hex_digit, hexed, name as name_text, slashed};
ghost use Rattle.text.specs.Output.{Fitted, Put, capped, printed};

use output::Printed;

// The length of a name's text, or of null where there is none; at most the largest usize.
pub fn name_length(name: Option<&[u8]>) -> usize
    ensures { result ≡ capped (length (name_text (option_copied name.entry))) }
{
    match name {
        Some(bytes) => output::sum(escaped_length(bytes), 2),
        None => 4,
    }
}

// The text of a name, or of none, at the front of the output, and its length; nothing, and 0, where there is no room.
pub fn put_name(out: &mut [u8], name: Option<&[u8]>) -> usize
    ensures { Put (printed (name_text (option_copied name.entry)) out.old) out.old out.new result }
{
    Name(name).put(out)
}

// A name, or none, as it is printed.
#[derive(Clone, Copy)]
pub struct Name<'a>(pub Option<&'a [u8]>);

impl Printed for Name<'_> {
    ghost text = { λ name. name_text (option_copied name.0) };

    fn fit(self, out: &mut [u8]) -> usize {
        fit_name(out, self.0)
    }
}

// The same, but for its answer: the length, whether there is room or not; at most the largest usize.
pub fn fit_name(out: &mut [u8], name: Option<&[u8]>) -> usize
    ensures { Fitted (name_text (option_copied name.entry)) out.old out.new result }
{
    match name {
        Some(bytes) => fit_some(out, bytes),
        None => {
            output::put_bytes(out, b"null");
            4
        }
    }
}

fn fit_some(out: &mut [u8], bytes: &[u8]) -> usize
    ensures { Fitted (name_text (Some bytes.now)) out.old out.new result }
{
    if has_room(out.len(), bytes) {
        return put_quoted(out, bytes);
    }
    name_length(Some(bytes))
}

// Whether a name's text fits so much room. Where there is plenty the text is not measured.
fn has_room(room: usize, bytes: &[u8]) -> bool
    requires { room < 2 ^ 63 }
    ensures { result ≡ leb (length (name_text (Some bytes.now))) room }
{
    if room / 6 > bytes.len() {
        return true;
    }
    name_length(Some(bytes)) <= room
}

fn escaped_length(bytes: &[u8]) -> usize
    ensures { result ≡ capped (length (escaped bytes.now)) }
{
    let mut length = 0;
    for b in bytes {
        length = output::sum(length, escape_length(*b));
    }
    length
}

fn escape_length(b: u8) -> usize
    ensures { result ≡ length (escape b) }
{
    if b < 0x20 || b > 0x7E {
        6
    } else if b == b'"' || b == b'\\' {
        2
    } else {
        1
    }
}

fn put_quoted(out: &mut [u8], bytes: &[u8]) -> usize
    requires { length (name_text (Some bytes.now)) ≤ length out.old }
    ensures { Put (name_text (Some bytes.now)) out.old out.new result }
{
    let mut at = output::put_bytes(out, b"\"");
    at += put_escaped(&mut out[at..], bytes);
    at + output::put_bytes(&mut out[at..], b"\"")
}

fn put_escaped(out: &mut [u8], bytes: &[u8]) -> usize
    requires { length (escaped bytes.now) ≤ length out.old }
    ensures { Put (escaped bytes.now) out.old out.new result }
{
    let mut at = 0;
    for b in bytes {
        at += put_escape(&mut out[at..], *b);
    }
    at
}

fn put_escape(out: &mut [u8], b: u8) -> usize
    requires { length (escape b) ≤ length out.old }
    ensures { Put (escape b) out.old out.new result }
{
    if b < 0x20 || 0x7E < b {
        put_hexed(out, b)
    } else if b == b'"' || b == b'\\' {
        put_slashed(out, b)
    } else {
        out[0] = b;
        1
    }
}

fn put_slashed(out: &mut [u8], b: u8) -> usize
    requires { 2 ≤ length out.old }
    ensures { Put (slashed b) out.old out.new result }
{
    out[0] = b'\\';
    out[1] = b;
    2
}

fn put_hexed(out: &mut [u8], b: u8) -> usize
    requires { 6 ≤ length out.old }
    ensures { Put (hexed b) out.old out.new result }
{
    out[0] = b'\\';
    out[1] = b'u';
    out[2] = b'0';
    out[3] = b'0';
    out[4] = hex_digit(b / 16);
    out[5] = hex_digit(b % 16);
    6
}

fn hex_digit(d: u8) -> u8
    requires { d < 16 }
    ensures { result ≡ hex_digit d }
{
    if d < 10 {
        return b'0' + d;
    }
    b'a' - 10 + d
}
