// The calls that check a dump in pieces. The state is the caller's, by value.
ghost use Rattle.std.specs.Prelude.{◌≡◌};
ghost use Rattle.pieces.specs.Pieces.{begun, fed, finished};
ghost use Rattle.lepsaino_c.specs.Answers.{check_answer};

use crate::answers::CheckAnswer;
use pieces::Pieces;

// The state before any byte.
pub fn lepsaino_begin() -> Pieces
    ensures { result ≡ begun }
{
    Pieces::begin()
}

// The state after one piece more.
pub fn lepsaino_feed(state: Pieces, piece: &[u8]) -> Pieces
    ensures { result ≡ fed state piece.now }
{
    state.feed(piece)
}

// What the whole check gives on all bytes that were fed.
pub fn lepsaino_finish(state: Pieces) -> CheckAnswer
    ensures { result ≡ check_answer (finished state) }
{
    CheckAnswer::from(state.finish())
}
