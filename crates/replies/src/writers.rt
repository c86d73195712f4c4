// What a writing call does and gives, and the digest of the buffer, or of the name file, after it.
use crate::arguments::{front_in, offset_in, subject_in};
use crate::buffers::digest;
use crate::{SPACE, put};
use console::word_at;
use rows::Refusal;

// A record into the name file. Its name is a front and a byte that fills it up to its length.
pub(crate) fn write_filled(names: &mut [u8], arguments: &[u8]) -> Result<usize, Refusal> {
    let mut space = [words::byte(arguments, 17, 0); SPACE];
    output::put_bytes(&mut space, front_in(arguments));
    let length = word_at(arguments, 13) as usize;
    match space.get(..length) {
        Some(name) => filer::write_name(
            names,
            offset_in(arguments),
            subject_in(arguments),
            word_at(arguments, 1),
            name,
        ),
        None => Ok(0),
    }
}

pub(crate) fn print_outcome(rt: &HostRuntime, outcome: Result<usize, Refusal>, buffer: &[u8]) {
    match outcome {
        Err(refusal) => put!(rt; "{refusal}"),
        Ok(number) => put!(rt; "done {number}"),
    }
    put!(rt; " {}\n", digest(buffer));
}
