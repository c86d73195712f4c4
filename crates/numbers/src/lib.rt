// Prints numbers: digits, in quotes from two to the fifty-third on.
// Two digits at a time are looked up in a table, which is made once in a call from outside and lent on from there.
#![tactic(auto)]

ghost use Rattle.std.specs.Prelude.{◌≡◌, ◌+◌, ◌≤◌, ◌<◌, ltb, length};
ghost use Rattle.text.specs.Numbers.{digits, is_bare, number, quoted};
ghost use Rattle.text.specs.Output.{Fitted, Put, Wrote, printed};
ghost use Rattle.numbers.specs.Counts.{IsCount};
ghost use Rattle.numbers.specs.Pairs.{digits_by, eight_by, four_by, number_by, pair_by, pairs as pairs_table};

use output::Printed;

// The two digits of each number below a hundred.
const PAIRS: [u8; 200] =
    *b"00010203040506070809101112131415161718192021222324252627282930313233343536373839404142434445464748495051525354555657585960616263646566676869707172737475767778798081828384858687888990919293949596979899";

// The table of pairs. Whoever names the constant builds all of it on the stack, so it is named here alone.
pub fn pairs() -> [u8; 200]
    ensures { result ≡ pairs_table }
{
    PAIRS
}

// Whether x is printed bare. The limit stands here alone.
pub fn is_bare(x: u64) -> bool
    ensures { result ≡ is_bare x }
{
    x < 9007199254740992
}

// The length of x's text. The bound follows, and spares callers its proof.
pub fn number_length(x: u64) -> usize
    ensures { (result ≡ length (number x)) × (result ≤ 22) }
{
    let count = digit_count(x);
    if is_bare(x) {
        return count;
    }
    count + 2
}

// The text of x at the front of the output, and its length; nothing, and 0, where there is no room.
pub fn put_number(out: &mut [u8], x: u64) -> usize
    ensures { Put (printed (number x) out.old) out.old out.new result }
{
    // Asked here too: as one call over the length, a number takes a tenth more instructions.
    if is_short(out.len(), x) {
        return 0;
    }
    let table = pairs();
    fit_number(out, x, &table)
}

// A number, and the table of pairs that it is printed by.
#[derive(Clone, Copy)]
pub struct Number<'a> {
    pub x: u64,
    pub pairs: &'a [u8; 200],
}

impl Printed for Number<'_> {
    ghost text = { λ number. number_by number.pairs.now number.x };

    fn fit(self, out: &mut [u8]) -> usize {
        fit_number(out, self.x, self.pairs)
    }
}

// The same by whatever table is lent, but for its answer: the length, whether there is room or not. A call of its own, so that a number goes to it in registers.
#[inline(never)]
pub fn fit_number(out: &mut [u8], x: u64, pairs: &[u8; 200]) -> usize
    ensures { Fitted (number_by pairs.now x) out.old out.new result }
{
    if is_short(out.len(), x) {
        return number_length(x);
    }
    if x < 100000000 {
        return put_low(out, x as u32, pairs);
    }
    if x < 10000000000 {
        return put_middle(out, x, pairs);
    }
    if is_bare(x) {
        return put_high(out, x, pairs);
    }
    put_quoted(out, x, pairs)
}

// Counts digits only near the end of the output: no text is longer than 22 bytes.
#[tactic(auto, using(crate::proofs::Steps::never_short))]
fn is_short(room: usize, x: u64) -> bool
    ensures { result ≡ ltb room (length (number x)) }
{
    if room >= 22 {
        return false;
    }
    room < number_length(x)
}

// By comparisons alone, which cost less than divisions.
fn digit_count(x: u64) -> usize
    ensures { result ≡ length (digits x) }
{
    if x < 10000 {
        return count_from(x, 1, 10);
    }
    if x < 100000000 {
        return count_from(x, 5, 100000);
    }
    if x < 1000000000000 {
        return count_from(x, 9, 1000000000);
    }
    if x < 10000000000000000 {
        return count_from(x, 13, 10000000000000);
    }
    count_from(x, 17, 100000000000000000)
}

// The count of a number that has so many digits, or up to three more; the limit is the first with one more.
fn count_from(x: u64, count: usize, limit: u64) -> usize
    requires { IsCount count limit x }
    ensures { result ≡ length (digits x) }
{
    if x < limit {
        return count;
    }
    if x < limit * 10 {
        return count + 1;
    }
    if x < limit * 100 {
        return count + 2;
    }
    count + 3
}

fn put_quoted(out: &mut [u8], x: u64, pairs: &[u8; 200]) -> usize
    requires { (10000000000 ≤ x) × (length (digits_by pairs.now x) + 2 ≤ length out.old) }
    ensures { Put (quoted (digits_by pairs.now x)) out.old out.new result }
{
    out[0] = b'"';
    let at = 1 + put_long(&mut out[1..], x, pairs);
    out[at] = b'"';
    at + 1
}

// The digits of a number that has eleven or more. What a division leaves is told by subtraction, here and in `put_high`: the compiler divides again for a `%` behind a branch.
fn put_long(out: &mut [u8], x: u64, pairs: &[u8; 200]) -> usize
    requires { (10000000000 ≤ x) × (length (digits_by pairs.now x) ≤ length out.old) }
    ensures { Put (digits_by pairs.now x) out.old out.new result }
{
    if x < 10000000000000000 {
        return put_high(out, x, pairs);
    }
    let high = x / 100000000;
    let head = high / 100000000;
    let few = put_few(out, head as u32, pairs);
    let at = append_eight(out, few, (high - head * 100000000) as u32, pairs);
    append_eight(out, at, (x - high * 100000000) as u32, pairs)
}

// The digits of a number that has eleven to sixteen.
fn put_high(out: &mut [u8], x: u64, pairs: &[u8; 200]) -> usize
    requires { (10000000000 ≤ x) × (x < 10000000000000000) × (length (digits_by pairs.now x) ≤ length out.old) }
    ensures { Put (digits_by pairs.now x) out.old out.new result }
{
    let high = (x / 100000000) as u32;
    let low = (x - high as u64 * 100000000) as u32;
    if x < 1000000000000 {
        let at = put_few(out, high, pairs);
        return append_eight(out, at, low, pairs);
    }
    let head = high / 10000;
    let few = put_few(out, head, pairs);
    let at = append_four(out, few, high - head * 10000, pairs);
    append_eight(out, at, low, pairs)
}

// The digits of a number that has nine or ten.
fn put_middle(out: &mut [u8], x: u64, pairs: &[u8; 200]) -> usize
    requires { (100000000 ≤ x) × (x < 10000000000) × (length (digits_by pairs.now x) ≤ length out.old) }
    ensures { Put (digits_by pairs.now x) out.old out.new result }
{
    let at = put_short(out, (x / 100000000) as u32, pairs);
    append_eight(out, at, (x % 100000000) as u32, pairs)
}

// The digits of a number that has eight at most.
fn put_low(out: &mut [u8], x: u32, pairs: &[u8; 200]) -> usize
    requires { (x < 100000000) × (length (digits_by pairs.now x) ≤ length out.old) }
    ensures { Put (digits_by pairs.now x) out.old out.new result }
{
    if x < 10000 {
        return put_few(out, x, pairs);
    }
    let at = put_few(out, x / 10000, pairs);
    append_four(out, at, x % 10000, pairs)
}

// The digits of a number that has four at most.
fn put_few(out: &mut [u8], x: u32, pairs: &[u8; 200]) -> usize
    requires { (x < 10000) × (length (digits_by pairs.now x) ≤ length out.old) }
    ensures { Put (digits_by pairs.now x) out.old out.new result }
{
    if x < 100 {
        return put_short(out, x, pairs);
    }
    let at = put_short(out, x / 100, pairs);
    at + put_pair(&mut out[at..], x % 100, pairs)
}

// The digits of a number that has two at most.
fn put_short(out: &mut [u8], x: u32, pairs: &[u8; 200]) -> usize
    requires { (x < 100) × (length (digits_by pairs.now x) ≤ length out.old) }
    ensures { Put (digits_by pairs.now x) out.old out.new result }
{
    if x < 10 {
        out[0] = b'0' + x as u8;
        return 1;
    }
    put_pair(out, x, pairs)
}

// Four or eight digits from a place on, zeros too, and where they end.
fn append_four(out: &mut [u8], at: usize, x: u32, pairs: &[u8; 200]) -> usize
    requires { (x < 10000) × (at + 4 ≤ length out.old) }
    ensures { Wrote at (four_by pairs.now x) out.old out.new result }
{
    at + put_four(&mut out[at..], x, pairs)
}

fn append_eight(out: &mut [u8], at: usize, x: u32, pairs: &[u8; 200]) -> usize
    requires { (x < 100000000) × (at + 8 ≤ length out.old) }
    ensures { Wrote at (eight_by pairs.now x) out.old out.new result }
{
    at + put_eight(&mut out[at..], x, pairs)
}

// Eight digits, zeros too. Not one function with four: no divisor can be computed of a const argument.
fn put_eight(out: &mut [u8], x: u32, pairs: &[u8; 200]) -> usize
    requires { (x < 100000000) × (8 ≤ length out.old) }
    ensures { Put (eight_by pairs.now x) out.old out.new result }
{
    let at = put_four(out, x / 10000, pairs);
    at + put_four(&mut out[at..], x % 10000, pairs)
}

// Four digits, zeros too.
fn put_four(out: &mut [u8], x: u32, pairs: &[u8; 200]) -> usize
    requires { (x < 10000) × (4 ≤ length out.old) }
    ensures { Put (four_by pairs.now x) out.old out.new result }
{
    let at = put_pair(out, x / 100, pairs);
    at + put_pair(&mut out[at..], x % 100, pairs)
}

// Two digits, a zero too. Both are read before one is written, so that the compiler makes one load and one store of them.
fn put_pair(out: &mut [u8], x: u32, pairs: &[u8; 200]) -> usize
    requires { (x < 100) × (2 ≤ length out.old) }
    ensures { Put (pair_by pairs.now x) out.old out.new result }
{
    let at = 2 * x as usize;
    let tens = pairs[at];
    let ones = pairs[at + 1];
    out[0] = tens;
    out[1] = ones;
    2
}
