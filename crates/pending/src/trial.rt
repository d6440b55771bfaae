// An X that is tried.
ghost use Rattle.std.specs.Prelude.{◌≤◌};

// An X within a million, and the most that any other row counts for at it.
// That this is within a million too stays a clause of `line_sum` and `line_excludes` (jumps): the others never asked for it.
#[derive(Clone, Copy)]
pub struct Trial {
    pub x: u32,
    pub cap: u32,
    pub ghost small: { x ≤ 1_000_000 },
}
