// The index of the registry's threads by their pointers, filled in one pass: a link for each entry, and behind them the first link of each place. Live threads and those that are gone have places of their own.
ghost use Rattle.std.specs.Prelude.{◌≡◌, ◌<◌, ◌≤◌, suc, replicate};
ghost use Rattle.trace.specs.Layout.{entry_at, entry_count};
ghost use Rattle.trace.specs.Names.{name_of, thread_name};
ghost use Rattle.trace.specs.Registry.{pointer_at};
ghost use Rattle.listing.specs.ThreadIndex.{Threads, has_thread, is_gone_kind};

use crate::index::{ByNumber, find, place_of};
use dump::{is_thread, kind_at};
use finder::entry_name;
use header::geometry_of;
use trace::{HEADER_SIZE, Header, NAME_OFFSET, Name, ThreadKind};

// No dump has room for more entries. The first links of the places stand behind theirs.
const FIRSTS: usize = 3274;

// A link for each entry, and the first link of each of twice 2,048 places.
pub(crate) const LINKS: usize = 7370;

// The threads of a dump that is sound, by its links.
#[derive(Clone, Copy)]
pub(crate) struct ThreadIndex<'a> {
    pub(crate) dump: &'a [u8],
    pub(crate) header: Header,
    pub(crate) links: &'a [u16; LINKS],
    pub(crate) ghost linked: { Threads dump.now header 0 links.now },
}

impl ByNumber for ThreadIndex<'_> {
    ghost count = { λ index. entry_count index.header };

    ghost has = { λ index. has_thread index.dump.now index.header };

    ghost number_at = { λ index i. pointer_at index.header.order index.dump.now (entry_at index.header i) };

    fn first(&self, place: usize) -> u16 {
        self.links[FIRSTS + place]
    }

    fn number(&self, i: usize) -> u32 {
        let header = self.header;
        let size = NAME_OFFSET + header.name_size as usize;
        words::word(self.dump, HEADER_SIZE + i * size + 4, header.order)
    }

    fn next(&self, i: usize) -> u16 {
        self.links[i]
    }
}

impl ThreadIndex<'_> {
    // The name for a pointer: a live thread's, or else one's that is gone.
    #[tactic(auto, unfolding(trace::specs::Names::name_of))]
    pub(crate) fn name_of(&self, pointer: u32) -> Option<Name>
        ensures { result ≡ name_of self.now.dump.now self.now.header pointer }
    {
        // The closure of an `or_else` would search, and was not proved.
        match self.thread_name(ThreadKind::Live, pointer) {
            Some(name) => Some(name),
            None => self.thread_name(ThreadKind::Gone, pointer),
        }
    }

    // The name of the lowest thread of a kind with a pointer.
    #[inline(always)]
    #[tactic(auto, using(crate::proofs::ThreadIndex::thread_found, crate::proofs::Follows::lowest_in_below))]
    fn thread_name(&self, kind: ThreadKind, pointer: u32) -> Option<Name>
        ensures { result ≡ thread_name kind self.now.dump.now self.now.header pointer }
    {
        let entry = find(self, is_gone_kind(kind), pointer)?;
        Some(entry_name(self.dump, self.header, kind, entry as u32))
    }
}

// Links the threads, from the last entry to the first, so that each link leads to the lowest behind it.
pub(crate) fn link_all(dump: &[u8], header: Header, links: &mut [u16; LINKS])
    requires { (entry_count header ≤ 3274) × (links.old ≡ replicate 7370 65535) }
    ensures { Threads dump.now header 0 links.new }
{
    for entry in (0..geometry_of(header).entries).rev() {
        link(dump, header, entry, links);
    }
}

// Links one entry more.
fn link(dump: &[u8], header: Header, entry: usize, links: &mut [u16; LINKS])
    requires { (entry < entry_count header) × Threads dump.now header (suc entry) links.old }
    ensures { Threads dump.now header entry links.new }
{
    let at = HEADER_SIZE + entry * geometry_of(header).entry_size;
    if is_thread(dump, at) {
        let order = header.order;
        let gone = is_gone_kind(kind_at(dump, at));
        let place = place_of(gone, words::word(dump, at + 4, order));
        links[entry] = links[FIRSTS + place];
        links[FIRSTS + place] = entry as u16;
    }
}

#[tactic(auto, unfolding(crate::specs::ThreadIndex::is_gone_kind))]
fn is_gone_kind(kind: ThreadKind) -> bool
    ensures { result ≡ is_gone_kind kind }
{
    matches!(kind, ThreadKind::Gone)
}
