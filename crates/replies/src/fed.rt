// The check of a dump in pieces.
use crate::readers::print_verdict;
use console::word_at;
use pieces::Pieces;

// One piece of so many bytes, an empty one, and then pieces of so many.
fn fed_in(dump: &[u8], first: usize, size: u32) -> Pieces {
    let (front, rest) = dump.split_at(first.min(dump.len()));
    let mut state = Pieces::begin().feed(front).feed(b"");
    for piece in rest.chunks(size as usize + 1) {
        state = state.feed(piece);
    }
    state
}

// The first piece's length, and by how much the others are longer than 1.
pub(crate) fn print_fed(rt: &HostRuntime, dump: &[u8], arguments: &[u8]) {
    let state = fed_in(dump, word_at(arguments, 0) as usize, word_at(arguments, 4));
    print_verdict(rt, state.finish());
}
