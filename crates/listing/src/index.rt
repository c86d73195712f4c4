// What the indices of threads and of records share: the places of numbers, and the search. A place leads to the first of the things that have it, and each of these to the next.
ghost use Rattle.std.specs.Prelude.{◌≡◌, ◌<◌, ◌&&◌, ℕ, Bool, true, eqb, suc};
ghost use Rattle.listing.specs.Index.{Leads, lowest_in, place_of, spread_of};

// Where a link leads that leads past all things. An Option would double the stack that the links take.
pub(crate) const NOWHERE: u16 = 65535;

// Things with numbers of two sorts: so many, each with its place and its number.
pub(crate) trait ByNumber {
    ghost count: { Self → ℕ };

    ghost has: { Self → ℕ → ℕ → Bool };

    ghost number_at: { Self → ℕ → ℕ };

    // Where a place leads.
    fn first(&self, place: usize) -> u16
        requires { place < 4096 }
        ensures { Leads (has self.now) (count self.now) place 0 result };

    fn number(&self, i: usize) -> u32
        requires { i < count self.now }
        ensures { result ≡ number_at self.now i };

    // Where a thing leads.
    fn next(&self, i: usize) -> u16
        requires { i < count self.now }
        ensures { (place : ℕ) → has self.now place i ≡ true → Leads (has self.now) (count self.now) place (suc i) result };
}

// The lowest thing of a sort with a number.
pub(crate) fn find<I: ByNumber>(index: &I, second: bool, number: u32) -> Option<usize>
    ensures { result ≡ lowest_in (λ (k : ℕ). I.has index.now (place_of second number) k && eqb (I.number_at index.now k) number) (I.count index.now) }
{
    let mut i = index.first(place_of(second, number));
    // No range counts the turns: each link leads on from the one before.
    while i != NOWHERE {
        if index.number(i as usize) == number {
            return Some(i as usize);
        }
        i = index.next(i as usize);
    }
    None
}

// The place of a number; behind the places of the first sort are those of the second.
#[tactic(auto, unfolding(crate::specs::Index::place_of))]
pub(crate) fn place_of(second: bool, number: u32) -> usize
    ensures { (result ≡ place_of second number) × (result < 4096) }
{
    if second {
        return 2048 + spread(number);
    }
    spread(number)
}

// Bits 21 to 31 of a product, which spreads numbers at most regular distances, whatever bits they share.
#[tactic(auto, unfolding(crate::specs::Index::spread_of))]
fn spread(number: u32) -> usize
    ensures { (result ≡ spread_of number) × (result < 2048) }
{
    (number as u64 * 2654435769 / 2097152 % 2048) as usize
}
