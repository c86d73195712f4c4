// A buffer as a whole: as a digest, as hex digits.
use crate::put;
use std::fmt;

// One byte more into a digest, which is the bytes as digits to the base 511, modulo a prime.
fn mixed(digest: u64, b: u8) -> u64 {
    digest % 36028797018963913 * 511 + u64::from(b)
}

// A change within six neighbouring bytes always gives another number.
pub(crate) fn digest(buffer: &[u8]) -> u64 {
    buffer.iter().fold(1, |digest, b| mixed(digest, *b))
}

#[derive(Drop)]
struct Hex<'a>(&'a [u8]);

impl fmt::Display for Hex<'_> {
    fn fmt<W: fmt::Write>(&self, f: &mut fmt::Formatter<W>) -> fmt::Result {
        for b in self.0 {
            write!(f, "{b:02x}")?;
        }
        Ok(())
    }
}

// All bytes on one line; of more than 1,024 none.
pub(crate) fn print_hex(rt: &HostRuntime, buffer: &[u8]) {
    if buffer.len() <= 1024 {
        put!(rt; "{}", Hex(buffer));
    }
    put!(rt; "\n");
}
