// Mending a dump as document 02 describes it: types here, and in specs/ what the promise of the mender cites. No code.
#![tactic(auto)]

// What was mended, in six counts: slots zeroed as missing, a bad current (0 or 1), entries in use with a bad type, used slots with id 0, whether slots were packed
// (0 or 1), and used slots whose index packing changed.
#[derive(Clone, Copy)]
pub struct Repairs {
    pub missing: usize,
    pub current: usize,
    pub types: usize,
    pub ids: usize,
    pub packed: usize,
    pub moved: usize,
}

// What mending gives: the copy's length and what was mended.
#[derive(Clone, Copy)]
pub struct Mended {
    pub length: usize,
    pub repairs: Repairs,
}
