// The calls that write into a buffer or a name file.
ghost use Rattle.std.specs.Prelude.{◌≡◌, length};
ghost use Rattle.mending.specs.Mending.{copy_of, mend_of, mending_rows};
ghost use Rattle.rows.specs.Lent.{left_in};
ghost use Rattle.rows.specs.Rows.{first_broken};
ghost use Rattle.trace.specs.Layout.{header_of};
ghost use Rattle.writing.specs.Writing.{filing, formatting, left, recording, registering, removing, said};
ghost use Rattle.lepsaino_c.specs.Answers.{format_given, mend_answer, number_answer, subject_given};

use lepsaino_c::{Answer, FormatNumbers, MendAnswer};
use trace::Slot;
use writing::Object;

// Formats a buffer.
#[unsafe(no_mangle)]
pub extern "C" fn lepsaino_format(buffer: &mut [u8], numbers: FormatNumbers) -> Answer
    ensures { (result ≡ number_answer (said (formatting (format_given numbers) buffer.old))) × (buffer.new ≡ left (formatting (format_given numbers) buffer.old) buffer.old) }
{
    lepsaino_c::lepsaino_format(buffer, numbers)
}

// Records an event.
#[unsafe(no_mangle)]
pub extern "C" fn lepsaino_record(buffer: &mut [u8], slot: Slot) -> Answer
    ensures { (result ≡ number_answer (said (recording slot buffer.old))) × (buffer.new ≡ left (recording slot buffer.old) buffer.old) }
{
    lepsaino_c::lepsaino_record(buffer, slot)
}

// Registers an object under a name.
#[unsafe(no_mangle)]
pub extern "C" fn lepsaino_register(buffer: &mut [u8], object: Object, name: &[u8]) -> Answer
    ensures { (result ≡ number_answer (said (registering object name.now buffer.old))) × (buffer.new ≡ left (registering object name.now buffer.old) buffer.old) }
{
    lepsaino_c::lepsaino_register(buffer, object, name)
}

// Removes the object with a pointer.
#[unsafe(no_mangle)]
pub extern "C" fn lepsaino_remove(buffer: &mut [u8], pointer: u32) -> Answer
    ensures { (result ≡ number_answer (said (removing pointer buffer.old))) × (buffer.new ≡ left (removing pointer buffer.old) buffer.old) }
{
    lepsaino_c::lepsaino_remove(buffer, pointer)
}

// Mends a dump into a second buffer.
#[unsafe(no_mangle)]
pub extern "C" fn lepsaino_mend(dump: &[u8], copy: &mut [u8]) -> MendAnswer
    ensures { (result ≡ mend_answer (mend_of dump.now (length copy.old))) × (copy.new ≡ left_in copy.old (first_broken (mending_rows dump.now (header_of dump.now) (length copy.old))) (copy_of dump.now (header_of dump.now))) }
{
    lepsaino_c::lepsaino_mend(dump, copy)
}

// Writes one record of a name file: an event's where `thread` is 0, otherwise a thread's.
#[unsafe(no_mangle)]
pub extern "C" fn lepsaino_write_name(
    names: &mut [u8],
    offset: usize,
    thread: u32,
    number: u32,
    name: &[u8],
) -> Answer
    ensures { (result ≡ number_answer (said (filing (subject_given thread) number name.now offset names.old))) × (names.new ≡ left (filing (subject_given thread) number name.now offset names.old) names.old) }
{
    lepsaino_c::lepsaino_write_name(names, offset, thread, number, name)
}
