// Removing: the lowest in-use entry that has a pointer is freed.
ghost use Rattle.std.specs.Prelude.{[], ◌∷◌, ◌≡◌};
ghost use Rattle.rows.specs.Rows.{first_broken, answer_by};
ghost use Rattle.trace.specs.declared.Wanted.TheVariants.{InUse};
ghost use Rattle.writing.specs.Table.{lowest_entry, row22};
ghost use Rattle.writing.specs.Writing.{left, removing, said};

use dump::lowest_entry;
use header::{geometry_of, header_of, header_verdict};
use rows::Refusal;
use trace::{HEADER_SIZE, Header, Wanted};
use words::put_byte;

// The lowest in-use entry that has a pointer, or row 22.
#[tactic(auto, unfolding(writing::specs::Table::row22))]
fn entry_with(buffer: &[u8], header: Header, pointer: u32) -> Result<usize, Refusal>
    ensures { result ≡ answer_by (first_broken (row22 buffer.now header pointer ∷ [])) (lowest_entry (InUse pointer) buffer.now header) }
{
    let index = lowest_entry(buffer, header, Wanted::InUse(pointer));
    rows::row(22, index >= geometry_of(header).entries, 0)?;
    Ok(index)
}

// Removes the object with a pointer: its entry's flag becomes 1. Gives the entry's index.
pub fn remove(buffer: &mut [u8], pointer: u32) -> Result<usize, Refusal>
    ensures { (result ≡ said (removing pointer buffer.old)) × (buffer.new ≡ left (removing pointer buffer.old) buffer.old) }
{
    let header = header_of(buffer);
    header_verdict(header, buffer.len())?;
    let index = entry_with(buffer, header, pointer)?;
    let at = HEADER_SIZE + index * geometry_of(header).entry_size;
    put_byte(buffer, at, 0, 1);
    Ok(index)
}
