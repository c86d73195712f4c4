// A refusal by number and place, rows checked in order, and tests and small sums with both sides worked out, so that a row is code with no branch.
#![tactic(auto)]

ghost use Rattle.std.specs.Prelude.{◌≡◌, ◌&&◌, ◌||◌, ◌-◌, min, [], ◌∷◌};
ghost use Rattle.rows.specs.Rows.{row_at, first_broken};

use std::fmt;

// By its number, which is the name that the rules give it.
#[derive(Clone, Copy)]
pub struct Refusal {
    pub number: u32,
    pub place: usize,
}

impl fmt::Display for Refusal {
    fn fmt<W: fmt::Write>(&self, f: &mut fmt::Formatter<W>) -> fmt::Result {
        write!(f, "{} {}", self.number, self.place)
    }
}

// What checking gives: a refusal, or nothing.
pub type Verdict = Result<(), Refusal>;

// A row of the table: refused where it is broken.
#[tactic(auto, using(crate::proofs::Rows::row_keeps, crate::proofs::Rows::row_refuses))]
pub fn row(number: u32, broken: bool, place: usize) -> Verdict
    ensures { result ≡ first_broken (row_at number broken place ∷ []) }
{
    if broken {
        Err(Refusal { number, place })
    } else {
        Ok(())
    }
}

// Whether one of two tests holds.
pub fn either(a: bool, b: bool) -> bool
    ensures { result ≡ (a || b) }
{
    a | b
}

// Whether two tests hold.
pub fn both(a: bool, b: bool) -> bool
    ensures { result ≡ (a && b) }
{
    a & b
}

// What a has above b, or 0.
pub fn above(a: usize, b: usize) -> usize
    ensures { result ≡ a - b }
{
    a.saturating_sub(b)
}

// The smaller of two.
pub fn least(a: usize, b: usize) -> usize
    ensures { result ≡ min a b }
{
    a.min(b)
}
