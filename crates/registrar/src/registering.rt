// Registering: an object is entered in the lowest free entry.
ghost use Rattle.std.specs.Prelude.{[], ◌∷◌, ◌++◌, ◌≡◌, ◌<◌, ◌^◌, length};
ghost use Rattle.std.proofs.lemmas.List.Edits.{sets};
ghost use Rattle.rows.specs.Rows.{first_broken, answer_by};
ghost use Rattle.trace.specs.Layout.{entry_at, entry_count};
ghost use Rattle.trace.specs.Table.{header_rows};
ghost use Rattle.trace.specs.declared.Wanted.TheVariants.{Free};
ghost use Rattle.words.specs.Fields.{field_bytes};
ghost use Rattle.writing.specs.Bytes.{entry_bytes, entry_fields, if_thread};
ghost use Rattle.writing.specs.Table.{lowest_entry, row19, row20, row21, row23};
ghost use Rattle.writing.specs.Writing.{left, registering, said};

use dump::{allowed_type, lowest_entry};
use header::{geometry_of, header_of, header_verdict};
use rows::{Refusal, Verdict};
use trace::{HEADER_SIZE, Header, NAME_OFFSET, Wanted};
use words::{Order, put_byte, put_padded, put_word};
use writing::Object;

#[tactic(auto, unfolding(writing::specs::Table::row19))]
fn row19(object_type: u8) -> Verdict
    ensures { result ≡ first_broken (row19 object_type ∷ []) }
{
    rows::row(19, !allowed_type(object_type), 0)
}

#[tactic(auto, using(crate::proofs::Zeros::zero_found), unfolding(writing::specs::Table::row23))]
fn row23(name: &[u8]) -> Verdict
    ensures { result ≡ first_broken (row23 name.now ∷ []) }
{
    rows::row(23, name.contains(&0), 0)
}

#[tactic(auto, unfolding(writing::specs::Table::row20))]
fn row20(buffer: &[u8], header: Header, pointer: u32) -> Verdict
    ensures { result ≡ first_broken (row20 buffer.now header pointer ∷ []) }
{
    let place = lowest_entry(buffer, header, Wanted::InUse(pointer));
    rows::row(20, place < geometry_of(header).entries, place)
}

// Checks 1 to 10, 19, 23, 20.
fn object_verdict(buffer: &[u8], header: Header, object: Object, name: &[u8]) -> Verdict
    ensures { result ≡ first_broken (header_rows header (length buffer.now) ++ (row19 object.object_type ∷ row23 name.now ∷ row20 buffer.now header object.pointer ∷ [])) }
{
    header_verdict(header, buffer.len())?;
    row19(object.object_type)?;
    row23(name)?;
    row20(buffer, header, object.pointer)
}

// The lowest free entry, or row 21.
#[tactic(auto, unfolding(writing::specs::Table::row21))]
fn free_entry(buffer: &[u8], header: Header) -> Result<usize, Refusal>
    ensures { result ≡ answer_by (first_broken (row21 buffer.now header ∷ [])) (lowest_entry Free buffer.now header) }
{
    let index = lowest_entry(buffer, header, Wanted::Free);
    rows::row(21, index >= geometry_of(header).entries, 0)?;
    Ok(index)
}

// The reserved byte as given for a thread, and 0 otherwise.
fn if_thread(object: Object, reserved: u8) -> u8
    ensures { result ≡ if_thread object reserved }
{
    if object.object_type == 1 { reserved } else { 0 }
}

// Stores all but the name. Single bytes are the same in both orders.
fn put_fields(buffer: &mut [u8], at: usize, order: Order, object: Object)
    requires { at < 2 ^ 40 }
    ensures { buffer.new ≡ sets buffer.old at (field_bytes order (entry_fields object)) }
{
    put_byte(buffer, at, 0, 0);
    put_byte(buffer, at, 1, object.object_type);
    put_byte(buffer, at, 2, if_thread(object, object.reserved_one));
    put_byte(buffer, at, 3, if_thread(object, object.reserved_two));
    put_word(buffer, at + 4, order, object.pointer);
    put_word(buffer, at + 8, order, object.parameter_one);
    put_word(buffer, at + 12, order, object.parameter_two);
}

// Stores an entry in use, by index.
fn put_entry(buffer: &mut [u8], header: Header, index: usize, object: Object, name: &[u8])
    requires { index < entry_count header }
    ensures { buffer.new ≡ sets buffer.old (entry_at header index) (entry_bytes header.order header.name_size object name.now) }
{
    let at = HEADER_SIZE + index * geometry_of(header).entry_size;
    put_fields(buffer, at, header.order, object);
    put_padded(
        buffer,
        at + NAME_OFFSET,
        name,
        usize::from(header.name_size),
    );
}

// Registers an object under a name in the lowest free entry, and gives the entry's index.
pub fn register(buffer: &mut [u8], object: Object, name: &[u8]) -> Result<usize, Refusal>
    ensures { (result ≡ said (registering object name.now buffer.old)) × (buffer.new ≡ left (registering object name.now buffer.old) buffer.old) }
{
    let header = header_of(buffer);
    object_verdict(buffer, header, object, name)?;
    let index = free_entry(buffer, header)?;
    put_entry(buffer, header, index, object, name);
    Ok(index)
}
