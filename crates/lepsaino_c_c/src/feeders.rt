// The calls that check a dump in pieces. The state is the caller's, by value.
ghost use Rattle.std.specs.Prelude.{◌≡◌};
ghost use Rattle.pieces.specs.Pieces.{begun, fed, finished};
ghost use Rattle.lepsaino_c.specs.Answers.{check_answer};

use lepsaino_c::CheckAnswer;
use pieces::Pieces;

// The state before any byte.
#[unsafe(no_mangle)]
pub extern "C" fn lepsaino_begin() -> Pieces
    ensures { result ≡ begun }
{
    lepsaino_c::lepsaino_begin()
}

// The state after one piece more.
#[unsafe(no_mangle)]
pub extern "C" fn lepsaino_feed(state: Pieces, piece: &[u8]) -> Pieces
    ensures { result ≡ fed state piece.now }
{
    lepsaino_c::lepsaino_feed(state, piece)
}

// What the whole check gives on all bytes that were fed.
#[unsafe(no_mangle)]
pub extern "C" fn lepsaino_finish(state: Pieces) -> CheckAnswer
    ensures { result ≡ check_answer (finished state) }
{
    lepsaino_c::lepsaino_finish(state)
}
