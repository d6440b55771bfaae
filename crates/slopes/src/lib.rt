// What rows add along a ray, held under falling lines.
#![tactic(auto)]

mod capped;
mod dropping;
mod drops;
mod way;

ghost use Rattle.std.specs.Prelude.{◌+◌, ◌-◌, ◌≤◌, ◌<◌};
ghost use Rattle.refinement.specs.Inner.Ray.{Lasts, FallsFrom, Lower, StaysBelow};

pub use capped::Capped;
pub use dropping::Dropping;
pub use drops::Drops;
pub use way::{Ray, Way};

// A line that begins at a value and falls by a slope a step, and for how many steps it holds.
#[derive(Clone, Copy)]
pub struct Line {
    pub value: u32,
    pub slope: u32,
    pub limit: u32,
}

// How many steps a part lasts that falls by so much a step. A part above the cost gives 0, since its fall does not show, and so does one
// that does not last for a whole fall.
pub fn steps_within(part: u32, fall: u32, cost: u32) -> u32
    requires { cost ≤ 1_000_000 }
    ensures { Lasts part fall cost result }
{
    if cost < part {
        return 0;
    }
    if fall == 0 {
        return 0;
    }
    if part < fall {
        return 0;
    }
    part / fall + 1
}

// A line from a value that falls by `whole` a step for all steps asked for, or by `rest` more for as long as that lasts.
pub fn falling(value: u32, whole: u32, rest: u32, lasts: u32, most: u32) -> Line
    requires { whole + rest ≤ 2_000_000 }
    ensures { FallsFrom value whole rest lasts most result.value result.slope result.limit }
{
    if lasts == 0 {
        return Line {
            value,
            slope: whole,
            limit: most,
        };
    }
    Line {
        value,
        slope: whole + rest,
        limit: lasts.min(most),
    }
}

// The line of the two that begins lower.
pub fn lower_line(one: Line, other: Line) -> Line
    ensures { Lower one.value one.slope one.limit other.value other.slope other.limit result.value result.slope result.limit }
{
    if one.value < other.value { one } else { other }
}

// For how many steps what lies under a line stays below a room that falls by `pull` a step.
pub fn steps_below(line: Line, pull: u32, room: u32) -> u32
    requires { (line.value ≤ 64_000_000) × (room ≤ 64_000_000) }
    ensures { StaysBelow line.value line.slope line.limit pull room result }
{
    if room <= line.value {
        return 0;
    }
    if pull <= line.slope {
        return line.limit;
    }
    let held = (room - 1 - line.value) / (pull - line.slope) + 1;
    held.min(line.limit)
}
