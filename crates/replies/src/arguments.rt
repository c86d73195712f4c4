// A call's arguments, out of the bytes that the file has for them. What is not there reads as 0.
use console::{number_at, word_at};
use events::Reading;
use naming::Subject;
use trace::Slot;
use words::Order;
use writing::{Format, Object};

// A line's and a listing's: the rate, the unit and the first serial (64 bits); then a line's position, at 16; and last the room.
pub(crate) fn reading_in(arguments: &[u8]) -> Reading {
    Reading {
        rate: word_at(arguments, 0),
        unit: word_at(arguments, 4),
        serial: number_at(arguments, 8, 12),
    }
}

pub(crate) fn position_in(arguments: &[u8]) -> usize {
    number_at(arguments, 16, 20) as usize
}

pub(crate) fn room_in(arguments: &[u8]) -> u32 {
    word_at(arguments, arguments.len().saturating_sub(4))
}

// The order (a byte), the base, the mask, the name size (16 bits) and the entry count (64 bits).
pub(crate) fn format_in(arguments: &[u8]) -> Format {
    Format {
        order: match words::byte(arguments, 0, 0) {
            0 => Order::Little,
            _ => Order::Big,
        },
        base: word_at(arguments, 1),
        mask: word_at(arguments, 5),
        name_size: words::half(arguments, 9, Order::Little),
        entries: number_at(arguments, 11, 15) as usize,
    }
}

// A slot's eight words.
pub(crate) fn slot_in(arguments: &[u8]) -> Slot {
    walk::slot_at(arguments, 0, Order::Little)
}

// The type (a byte), the pointer, the two parameters and the two reserved bytes; the name follows.
pub(crate) fn object_in(arguments: &[u8]) -> Object {
    Object {
        object_type: words::byte(arguments, 0, 0),
        pointer: word_at(arguments, 1),
        parameter_one: word_at(arguments, 5),
        parameter_two: word_at(arguments, 9),
        reserved_one: words::byte(arguments, 13, 0),
        reserved_two: words::byte(arguments, 14, 0),
    }
}

// The name that follows an object's 15 bytes.
pub(crate) fn name_in(arguments: &[u8]) -> &[u8] {
    arguments.get(15..).unwrap_or(b"")
}

// A record's: whether it is a thread's (a byte), the id or the pointer, the offset (64 bits), the name's length, the byte that fills it, and the name's front.
pub(crate) fn subject_in(arguments: &[u8]) -> Subject {
    match words::byte(arguments, 0, 0) {
        0 => Subject::Event,
        _ => Subject::Thread,
    }
}

pub(crate) fn offset_in(arguments: &[u8]) -> usize {
    number_at(arguments, 5, 9) as usize
}

// The bytes that follow a record's 18.
pub(crate) fn front_in(arguments: &[u8]) -> &[u8] {
    arguments.get(18..).unwrap_or(b"")
}
