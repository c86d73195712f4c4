// The registry, written: an object is entered in the lowest free entry, and removed again.
#![tactic(auto)]

mod registering;
mod removing;

pub use registering::register;
pub use removing::remove;
