// The calls for C: each hands on to the library's call and gives its answer as a struct of numbers. include/lepsaino.h declares them.
#![tactic(auto)]

mod answers;
mod feeders;
mod named_readers;
mod readers;
mod writers;

pub use answers::{Answer, CheckAnswer, EventAnswer, MendAnswer, NameAnswer};
pub use feeders::{lepsaino_begin, lepsaino_feed, lepsaino_finish};
pub use named_readers::{
    lepsaino_event_with_names, lepsaino_find_name_with_names, lepsaino_line_with_names,
    lepsaino_listing_with_names,
};
pub use readers::{
    lepsaino_check, lepsaino_event, lepsaino_find_name, lepsaino_line, lepsaino_listing,
    lepsaino_number,
};
pub use writers::{
    FormatNumbers, lepsaino_format, lepsaino_mend, lepsaino_record, lepsaino_register,
    lepsaino_remove, lepsaino_write_name,
};
