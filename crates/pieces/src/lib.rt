// A sheet that comes in pieces: the state kept between them, what each byte does to it, what its end answers, and what follows from it:
// types, definitions and laws, no function.
#![tactic(auto)]

use grammar::Read;

// How far a sheet has been read: the right bytes taken, whether the byte behind them was wrong (0 where none was), and line one so far.
// Kept as it is, a number for whether a byte was wrong too: C holds this between two pieces.
#[repr(C)]
#[derive(Clone, Copy)]
pub struct Reached {
    pub taken: u32,
    pub wrong: u32,
    pub processors: u32,
    pub rows: u32,
}

// The state between pieces: how far the sheet has been read, the words of its rows so far, and, once it has ended (0 before), its answer.
// Kept as it is, the answer beside whether there is one too: C holds this between two pieces.
#[repr(C)]
#[derive(Clone, Copy)]
pub struct Pieces {
    pub reached: Reached,
    pub words: [u32; 192],
    pub ended: u32,
    pub answer: Read,
}

// What a piece returns: the state behind it, and the answer where the end has been.
#[derive(Clone, Copy)]
pub struct Fed {
    pub state: Pieces,
    pub answer: Option<Read>,
}

// What the end returns: the state behind it, and the answer.
#[derive(Clone, Copy)]
pub struct Ended {
    pub state: Pieces,
    pub answer: Read,
}
