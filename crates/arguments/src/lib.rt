// Numbers among a program's arguments.
#![tactic(auto)]

ghost use Rattle.std.specs.Prelude.{◌≡◌};
ghost use Rattle.arguments.specs.Arguments.{argument_of};

// The number that digits stand for, if there are some, and it is at most so much.
#[tactic(auto, using(crate::proofs::Digits::begun, crate::proofs::Digits::not_digit, crate::proofs::Digits::next_too_large, crate::proofs::Digits::wrong_empty, crate::proofs::Digits::too_large, crate::proofs::Digits::right))]
pub fn number_in(text: &[u8], most: u64) -> Option<u64>
    ensures { result ≡ argument_of text.now most }
{
    let mut value = 0u64;
    for b in text {
        if !b.is_ascii_digit() {
            return None;
        }
        value = value.checked_mul(10)?.checked_add(u64::from(*b - b'0'))?;
    }
    if text.is_empty() || value > most {
        return None;
    }
    Some(value)
}
