// The calls that write into a buffer or a name file.
ghost use Rattle.std.specs.Prelude.{◌≡◌, length};
ghost use Rattle.mending.specs.Mending.{copy_of, mend_of, mending_rows};
ghost use Rattle.rows.specs.Lent.{left_in};
ghost use Rattle.rows.specs.Rows.{first_broken};
ghost use Rattle.trace.specs.Layout.{header_of};
ghost use Rattle.writing.specs.Writing.{filing, formatting, left, recording, registering, removing, said};
ghost use Rattle.lepsaino_c.specs.Answers.{format_given, mend_answer, order_given, number_answer, subject_given};

use crate::answers::{Answer, MendAnswer};
use naming::Subject;
use trace::Slot;
use words::Order;
use writing::{Format, Object};

// A format with its byte order as a number: 0 is little-endian, any other big.
#[repr(C)]
#[derive(Clone, Copy)]
pub struct FormatNumbers {
    pub big: u32,
    pub base: u32,
    pub mask: u32,
    pub name_size: u16,
    pub entries: usize,
}

#[tactic(auto, unfolding(crate::specs::Answers::order_given))]
fn order_given(big: u32) -> Order
    ensures { result ≡ order_given big }
{
    if big == 0 {
        return Order::Little;
    }
    Order::Big
}

#[tactic(auto, unfolding(crate::specs::Answers::format_given))]
fn format_given(numbers: FormatNumbers) -> Format
    ensures { result ≡ format_given numbers }
{
    Format {
        order: order_given(numbers.big),
        base: numbers.base,
        mask: numbers.mask,
        name_size: numbers.name_size,
        entries: numbers.entries,
    }
}

// Formats a buffer.
pub fn lepsaino_format(buffer: &mut [u8], numbers: FormatNumbers) -> Answer
    ensures { (result ≡ number_answer (said (formatting (format_given numbers) buffer.old))) × (buffer.new ≡ left (formatting (format_given numbers) buffer.old) buffer.old) }
{
    Answer::from(formatter::format(buffer, format_given(numbers)))
}

// Records an event.
pub fn lepsaino_record(buffer: &mut [u8], slot: Slot) -> Answer
    ensures { (result ≡ number_answer (said (recording slot buffer.old))) × (buffer.new ≡ left (recording slot buffer.old) buffer.old) }
{
    Answer::from(recorder::record(buffer, slot))
}

// Registers an object under a name.
pub fn lepsaino_register(buffer: &mut [u8], object: Object, name: &[u8]) -> Answer
    ensures { (result ≡ number_answer (said (registering object name.now buffer.old))) × (buffer.new ≡ left (registering object name.now buffer.old) buffer.old) }
{
    Answer::from(registrar::register(buffer, object, name))
}

// Removes the object with a pointer.
pub fn lepsaino_remove(buffer: &mut [u8], pointer: u32) -> Answer
    ensures { (result ≡ number_answer (said (removing pointer buffer.old))) × (buffer.new ≡ left (removing pointer buffer.old) buffer.old) }
{
    Answer::from(registrar::remove(buffer, pointer))
}

// Mends a dump into a second buffer.
pub fn lepsaino_mend(dump: &[u8], copy: &mut [u8]) -> MendAnswer
    ensures { (result ≡ mend_answer (mend_of dump.now (length copy.old))) × (copy.new ≡ left_in copy.old (first_broken (mending_rows dump.now (header_of dump.now) (length copy.old))) (copy_of dump.now (header_of dump.now))) }
{
    MendAnswer::from(mender::mend(dump, copy))
}

#[tactic(auto, unfolding(crate::specs::Answers::subject_given))]
fn subject_given(thread: u32) -> Subject
    ensures { result ≡ subject_given thread }
{
    if thread == 0 {
        return Subject::Event;
    }
    Subject::Thread
}

// Writes one record of a name file: an event's where `thread` is 0, otherwise a thread's.
pub fn lepsaino_write_name(
    names: &mut [u8],
    offset: usize,
    thread: u32,
    number: u32,
    name: &[u8],
) -> Answer
    ensures { (result ≡ number_answer (said (filing (subject_given thread) number name.now offset names.old))) × (names.new ≡ left (filing (subject_given thread) number name.now offset names.old) names.old) }
{
    Answer::from(filer::write_name(names, offset, subject_given(thread), number, name))
}
