// What can be printed, and bytes as such; and adds up lengths.
#![tactic(auto)]

ghost use Rattle.std.specs.Prelude.{ℕ, List, cond, ◌≡◌, ◌+◌, leb};
ghost use Rattle.text.specs.Output.{Fitted, Put, capped, printed};

// What is printed: it has a text, and puts that at the front of the output that it is lent.
pub trait Printed: Sized {
    ghost text: { Self → List ℕ };

    // The answer is the text's length, whether there is room or not; at most the largest usize.
    fn fit(self, out: &mut [u8]) -> usize
        ensures { Fitted (text self) out.old out.new result };

    // The answer is the text's length; nothing, and 0, where there is no room.
    final fn put(self, out: &mut [u8]) -> usize
        ensures { Put (printed (text self) out.old) out.old out.new result }
    {
        let length = self.fit(out);
        if_room(length, out.len())
    }
}

// Bytes are their own text.
impl<const N: usize> Printed for &[u8; N] {
    ghost text = { λ bytes. bytes.now };

    fn fit(self, out: &mut [u8]) -> usize {
        put_bytes(out, self);
        N
    }
}

// The bytes at the front of the output, and their number; nothing, and 0, where there is no room.
pub fn put_bytes(out: &mut [u8], bytes: &[u8]) -> usize
    ensures { Put (printed bytes.now out.old) out.old out.new result }
{
    let length = bytes.len();
    if out.len() < length {
        return 0;
    }
    // By index: the standard library's copy would ask C for `memmove`, and a line would take a ninth more instructions.
    for i in 0..length {
        out[i] = bytes[i];
    }
    length
}

// a plus b, or the largest usize where that is more.
pub fn sum(a: usize, b: usize) -> usize
    ensures { result ≡ capped (a + b) }
{
    a.saturating_add(b)
}

// What a printer answers that wrote a text of this length if there was so much room: the length, or 0.
pub fn if_room(length: usize, room: usize) -> usize
    ensures { result ≡ cond (leb length room) length 0 }
{
    if length <= room { length } else { 0 }
}
