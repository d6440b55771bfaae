// What a task sheet's bytes say, what reading and writing one answer, and what follows from it: types, definitions and laws.
#![tactic(auto)]

mod said;

// What line one says: the processors and the row count.
#[derive(Clone, Copy)]
pub struct Header {
    pub processors: u32,
    pub rows: u32,
}

// What reading a sheet returns in C: the refusal's number and place, or 0 and 0 with the processors and the row count.
// Kept as it is: C is given this, field by field.
#[repr(C)]
#[derive(Clone, Copy)]
pub struct Read {
    pub refusal: u32,
    pub place: u32,
    pub processors: u32,
    pub rows: u32,
}

// What writing a sheet returns in C: the refusal's number and place, or 0 and 0 with the number of bytes written.
// Kept as it is: C is given this, field by field.
#[repr(C)]
#[derive(Clone, Copy)]
pub struct Written {
    pub refusal: u32,
    pub place: u32,
    pub length: u32,
}
