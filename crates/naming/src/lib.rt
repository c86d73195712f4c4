// A name file as document 02 describes it (A7): types and sizes here, and in specs/ what every promise cites. No code.
#![tactic(auto)]

// What a record names.
#[derive(Clone, Copy)]
pub enum Subject {
    Event,
    Thread,
}

// What a search of a name file looks for: a record that is damaged, or one that names an event by its id or a thread by its pointer.
#[derive(Clone, Copy)]
pub enum Sought {
    Damaged,
    Naming { subject: Subject, number: u32 },
}

// The bytes of a record's length and kind.
pub const RECORD_FRONT: usize = 4;

// The bytes of a record before its name: its length, its kind, and the id or the pointer.
pub const NAME_START: usize = 8;
