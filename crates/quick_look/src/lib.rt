// What the density test answers, and what follows from it: types, definitions and laws, no function.
#![tactic(auto)]

// What the test says of rows: their densities meet it, they do not, or rounding leaves it open.
#[derive(Clone, Copy)]
pub enum Reply {
    Yes,
    No,
    Unsure,
}

// Densities of some rows in billionths: their sum and the largest.
#[derive(Clone, Copy)]
pub struct Side {
    pub sum: u64,
    pub largest: u64,
}

// The same densities each rounded down, and each rounded up.
#[derive(Clone, Copy)]
pub struct Sides {
    pub down: Side,
    pub up: Side,
}
