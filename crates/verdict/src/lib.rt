// What the exact test for one processor answers, and what follows from it: types, definitions and laws, no function.
#![tactic(auto)]

// What the test says of a sheet: the shortest length that demands more than its length, or the busy length, which shows that no length
// does, or neither within the horizon.
#[derive(Clone, Copy)]
pub enum Outcome {
    Miss(u32),
    Fits(u32),
    Undecided,
}

// What a look at a row shows: its demand in the length, its last deadline within the length, or 0, and its first behind the length.
#[derive(Clone, Copy)]
pub struct Look {
    pub demand: u32,
    pub since: u32,
    pub next: u32,
}

// What is noted of a group of rows: its demand in a length, and its last deadline within that length. The deadline says when to look again
// and no more: nothing is claimed by it.
#[derive(Clone, Copy)]
pub struct Note {
    pub demand: u32,
    pub since: u32,
}
