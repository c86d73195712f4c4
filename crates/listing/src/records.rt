// The index of a name file's records by their numbers, filled in two passes: where each record starts, a link for each, and the first link of each place. Records of events and of threads have places of their own.
ghost use Rattle.std.specs.Prelude.{◌≡◌, ℕ, ◌<◌, ◌≤◌, ◌^◌, suc, length, option_copied, replicate};
ghost use Rattle.rows.specs.Rows.{first_broken};
ghost use Rattle.naming.specs.Records.{file_rows, length_at, number_at, record_at, record_count, record_name};
ghost use Rattle.listing.specs.RecordIndex.{Adds, Records, has_record, is_thread_subject};

use crate::index::{ByNumber, find, place_of};
use namer::name_at;
use naming::{RECORD_FRONT, Subject};
use trace::Name;
use words::Order;

// No name file has room for more records. Behind the places where they start stand their links, and behind these the first links of the places.
const LINKS: usize = 16384;

const FIRSTS: usize = 32768;

// Where each record starts, a link for each, and the first link of each of twice 2,048 places.
pub(crate) const RECORDS: usize = 36864;

// The records of a name file.
#[derive(Clone, Copy)]
pub(crate) struct RecordIndex<'a> {
    pub(crate) names: &'a [u8],
    pub(crate) records: &'a [u16; RECORDS],
    pub(crate) ghost linked: { Records names.now 0 records.now },
}

impl ByNumber for RecordIndex<'_> {
    ghost count = { λ index. record_count index.names.now };

    ghost has = { λ index. has_record index.names.now };

    ghost number_at = { λ index i. number_at index.names.now (record_at index.names.now i) };

    fn first(&self, place: usize) -> u16 {
        self.records[FIRSTS + place]
    }

    fn number(&self, i: usize) -> u32 {
        let at = self.records[i] as usize;
        words::word(self.names, at + RECORD_FRONT, Order::Little)
    }

    fn next(&self, i: usize) -> u16 {
        self.records[LINKS + i]
    }
}

impl RecordIndex<'_> {
    // The name in the file for an event's id or a thread's pointer.
    #[tactic(auto, using(crate::proofs::RecordIndex::record_found, crate::proofs::Follows::lowest_in_below))]
    pub(crate) fn name_in(&self, subject: Subject, number: u32) -> Option<Name>
        ensures { result ≡ record_name subject self.now.names.now number }
    {
        let i = find(self, is_thread_subject(subject), number)?;
        Some(name_at(self.names, self.records[i] as u32))
    }
}

#[tactic(auto, unfolding(crate::specs::RecordIndex::is_thread_subject))]
fn is_thread_subject(subject: Subject) -> bool
    ensures { result ≡ is_thread_subject subject }
{
    matches!(subject, Subject::Thread)
}

// Indexes a name file.
pub(crate) fn index_all(names: &[u8], records: &mut [u16; RECORDS])
    requires { (length names.now ≤ 65536) × (records.old ≡ replicate 36864 65535) }
    ensures { Records names.now 0 records.new }
{
    for i in (0..find_all(names, records)).rev() {
        link(names, i, records);
    }
}

// Notes where each record starts, and says how many there are.
fn find_all(names: &[u8], records: &mut [u16; RECORDS]) -> usize
    requires { (length names.now ≤ 65536) × (records.old ≡ replicate 36864 65535) }
    ensures { (result ≡ record_count names.now) × Records names.now (record_count names.now) records.new }
{
    let mut at = 0;
    let mut i = 0;
    // No range counts the records: where one ends is read from it.
    while at < names.len() {
        records[i] = at as u16;
        i += 1;
        at = at + RECORD_FRONT + words::half(names, at, Order::Little) as usize;
    }
    i
}

// Links one record more.
fn link(names: &[u8], i: usize, records: &mut [u16; RECORDS])
    requires { (i < record_count names.now) × Records names.now (suc i) records.old }
    ensures { Records names.now i records.new }
{
    let at = records[i] as usize;
    let kind = words::half(names, at + 2, Order::Little);
    let thread = kind == 2;
    if kind == 1 || thread {
        let place = place_of(thread, words::word(names, at + RECORD_FRONT, Order::Little));
        records[LINKS + i] = records[FIRSTS + place];
        records[FIRSTS + place] = i as u16;
    }
}

// How many bytes the names of a file, where one is given, can add to a line: twice the longest record's.
pub(crate) fn most_added(names: Option<&[u8]>) -> usize
    requires { first_broken (file_rows (option_copied names)) ≡ Ok tt }
    ensures { Adds (option_copied names.entry) result × (result < 2 ^ 17) }
{
    match names {
        None => 0,
        Some(names) => 2 * longest(names),
    }
}

// The length of the longest record, or more: no name in the file is longer.
fn longest(names: &[u8]) -> usize
    requires { length names.now ≤ 65536 }
    ensures { (result < 2 ^ 16) × ((i : ℕ) → i < record_count names.now → length_at names.now (record_at names.now i) ≤ result) }
{
    let mut at = 0;
    let mut most = 0;
    // No range counts the records: where one ends is read from it.
    while at < names.len() {
        let length = words::half(names, at, Order::Little) as usize;
        most = most.max(length);
        at = at + RECORD_FRONT + length;
    }
    most
}
