// The calls for C as the archive exports them: each hands on to the library's function of its name, under the same promise.
#![tactic(auto)]

mod feeders;
mod named_readers;
mod readers;
mod writers;

pub use feeders::{lepsaino_begin, lepsaino_feed, lepsaino_finish};
pub use named_readers::{
    lepsaino_event_with_names, lepsaino_find_name_with_names, lepsaino_line_with_names,
    lepsaino_listing_with_names,
};
pub use readers::{
    lepsaino_check, lepsaino_event, lepsaino_find_name, lepsaino_line, lepsaino_listing,
    lepsaino_number,
};
pub use writers::{
    lepsaino_format, lepsaino_mend, lepsaino_record, lepsaino_register, lepsaino_remove,
    lepsaino_write_name,
};
