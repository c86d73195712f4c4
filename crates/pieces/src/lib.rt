// Document 02, A4: a dump checked in pieces, cut anywhere. The state is handed in and handed back each time, and the answer comes at the finish.
#![tactic(auto)]

mod parts;

ghost use Rattle.std.specs.Prelude.{◌≡◌, ◌+◌, ◌≤◌, length};
ghost use Rattle.trace.specs.Layout.{header_size};
ghost use Rattle.pieces.specs.Pieces.{begun, counted, fed, finished};

use header::{header_of, header_verdict};
pub use parts::{Body, Entries, FRONT_SIZE, Slots};
use rows::Refusal;
use trace::{HEADER_SIZE, MOST_BYTES, Sound};

// The header's bytes, what has come behind the header, and how many bytes have come in all, 65,537 where there were more.
#[repr(C)]
#[derive(Clone, Copy)]
pub struct Pieces {
    pub header: [u8; HEADER_SIZE],
    pub body: Body,
    pub total: usize,
}

fn counted(total: usize, more: usize) -> usize
    ensures { result ≡ counted total more }
{
    total + more.min((MOST_BYTES + 1).saturating_sub(total))
}

impl Pieces {
    // Before any byte.
    #[tactic(auto, unfolding(crate::specs::Pieces::begun))]
    pub fn begin() -> Pieces
        ensures { result ≡ begun }
    {
        let header = [0u8; HEADER_SIZE];
        Pieces {
            header,
            total: 0,
            body: Body::begin(&header),
        }
    }

    // The state after one piece more.
    pub fn feed(self, piece: &[u8]) -> Pieces
        ensures { result ≡ fed self piece.now }
    {
        let of_header = HEADER_SIZE.saturating_sub(self.total).min(piece.len());
        let (front, rest) = piece.split_at(of_header);
        self.feed_header(front).feed_body(rest)
    }

    fn feed_header(self, bytes: &[u8]) -> Pieces
        requires { 1 ≤ length bytes.now → self.total + length bytes.now ≤ header_size }
        ensures { result ≡ fed self bytes.now }
    {
        if bytes.is_empty() {
            return self;
        }
        let mut header = self.header;
        words::put_padded(&mut header, self.total, bytes, bytes.len());
        Pieces {
            header,
            total: self.total + bytes.len(),
            body: Body::begin(&header),
        }
    }

    fn feed_body(self, bytes: &[u8]) -> Pieces
        requires { 1 ≤ length bytes.now → header_size ≤ self.total }
        ensures { result ≡ fed self bytes.now }
    {
        Pieces {
            total: counted(self.total, bytes.len()),
            body: self.body.feed(bytes),
            ..self
        }
    }

    // What the whole check gives on all bytes that came.
    pub fn finish(self) -> Result<Sound, Refusal>
        ensures { result ≡ finished self }
    {
        let header = header_of(&self.header);
        header_verdict(header, self.total)?;
        self.body.verdict()?;
        Ok(Sound {
            header,
            events: self.body.slots.unused,
        })
    }
}
