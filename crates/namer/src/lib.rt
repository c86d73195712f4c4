// Reads name files (document 02, A7): checks one, and finds the name of an event or of a thread in it.
#![tactic(auto)]

ghost use Rattle.std.specs.Prelude.{[], ◌∷◌, ◌≡◌, ◌<◌, ◌^◌, length, option_copied};
ghost use Rattle.rows.specs.Rows.{first_broken};
ghost use Rattle.trace.specs.Table.{row2};
ghost use Rattle.naming.specs.Records.{end_at, file_rows, is_sought_at, kind_at, kind_of, length_at, name_at, name_in, number_at, record_name, row27};
ghost use Rattle.naming.specs.declared.Sought.TheVariants.{Damaged};
ghost use Rattle.namer.specs.Searches.{sought_at};

use naming::{NAME_START, RECORD_FRONT, Sought, Subject};
use rows::Verdict;
use trace::{MOST_BYTES, Name};
use words::Order;

// Checks a name file, where one is given: 2, 27.
#[tactic(auto, unfolding(rows::specs::Rows::first_broken))]
pub fn file_verdict(names: Option<&[u8]>) -> Verdict
    ensures { result ≡ first_broken (file_rows (option_copied names.entry)) }
{
    match names {
        Some(names) => given_verdict(names),
        None => Ok(()),
    }
}

fn given_verdict(names: &[u8]) -> Verdict
    ensures { result ≡ first_broken (row2 (length names.now) ∷ row27 names.now ∷ []) }
{
    rows::row(2, names.len() > MOST_BYTES, 0)?;
    let at = first_record(names, Sought::Damaged);
    rows::row(27, at < names.len(), at)
}

// The name in a file, where one is given, for an event's id or a thread's pointer: the first record for it counts.
#[tactic(auto, unfolding(naming::specs::Records::name_in))]
pub fn name_in(subject: Subject, names: Option<&[u8]>, number: u32) -> Option<Name>
    ensures { result ≡ name_in subject (option_copied names.entry) number }
{
    record_name(subject, names?, number)
}

fn record_name(subject: Subject, names: &[u8], number: u32) -> Option<Name>
    ensures { result ≡ record_name subject names.now number }
{
    let at = first_record(names, Sought::Naming { subject, number });
    if at < names.len() {
        return Some(name_from(names, at));
    }
    None
}

// The name in the record at a place, whether or not one starts there.
pub fn name_at(names: &[u8], at: u32) -> Name
    ensures { result ≡ name_at names.now at }
{
    name_from(names, at as usize)
}

fn name_from(names: &[u8], at: usize) -> Name
    requires { at < 2 ^ 63 }
    ensures { result ≡ name_at names.now at }
{
    Name::Filed {
        at: at + NAME_START,
        length: length_at(names, at).saturating_sub(4),
    }
}

// Where the first record starts that is sought, or the file's length where there is none.
pub fn first_record(names: &[u8], sought: Sought) -> usize
    ensures { result ≡ sought_at sought names.now }
{
    let mut at = 0;
    // No range counts the records: where one ends is read from it.
    loop {
        if at >= names.len() {
            break names.len();
        }
        if is_sought(names, at, sought) {
            break at;
        }
        at = end_of(names, at);
    }
}

#[tactic(auto, unfolding(naming::specs::Records::is_sought_at))]
fn is_sought(names: &[u8], at: usize, sought: Sought) -> bool
    requires { at < 2 ^ 63 }
    ensures { result ≡ is_sought_at sought names.now at }
{
    match sought {
        Sought::Damaged => is_damaged(names, at),
        Sought::Naming { subject, number } => {
            kind_at(names, at) == kind_of(subject) && number_at(names, at) == number
        }
    }
}

#[tactic(auto, unfolding(naming::specs::Records::is_sought_at))]
fn is_damaged(names: &[u8], at: usize) -> bool
    requires { at < 2 ^ 63 }
    ensures { result ≡ is_sought_at Damaged names.now at }
{
    let kind = kind_at(names, at);
    let short = length_at(names, at) < 4;
    names.len() < end_of(names, at) || ((kind == 1 || kind == 2) && short)
}

// The kind of a record that names an event or a thread.
pub fn kind_of(subject: Subject) -> u16
    ensures { result ≡ kind_of subject }
{
    match subject {
        Subject::Event => 1,
        Subject::Thread => 2,
    }
}

// The record at a place: its length, its kind, the id or the pointer that it names, and where it ends.
fn length_at(names: &[u8], at: usize) -> usize
    ensures { (result ≡ length_at names.now at) × (result < 2 ^ 16) }
{
    words::half(names, at, Order::Little) as usize
}

fn kind_at(names: &[u8], at: usize) -> u16
    requires { at < 2 ^ 63 }
    ensures { result ≡ kind_at names.now at }
{
    words::half(names, at + 2, Order::Little)
}

fn number_at(names: &[u8], at: usize) -> u32
    requires { at < 2 ^ 63 }
    ensures { result ≡ number_at names.now at }
{
    words::word(names, at + RECORD_FRONT, Order::Little)
}

fn end_of(names: &[u8], at: usize) -> usize
    requires { at < 2 ^ 63 }
    ensures { result ≡ end_at names.now at }
{
    at + RECORD_FRONT + length_at(names, at)
}
