// What the one-row question and a refinement mean on lent words, and what follows from it: types, definitions and laws.
#![tactic(auto)]

mod asked;
mod other;
mod told;

pub use asked::Asked;
pub use other::Other;

// The answer of a refinement: a refusal's number and place, or 0, 0 and the marks.
// Kept as it is: C is given this, field by field.
#[repr(C)]
#[derive(Clone, Copy)]
pub struct Refined {
    pub refusal: u32,
    pub place: u32,
    pub marks: u64,
}
