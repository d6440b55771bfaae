// Densities in billionths, rounded down and rounded up from one division a row: their sums, and the largest.
ghost use Rattle.std.specs.Prelude.{◌≡◌, ◌+◌, ◌*◌, ◌-◌, ◌/◌, ◌≤◌};
ghost use Rattle.model.specs.Demand.{ceiling};
ghost use Rattle.model.specs.Density.{billion};
ghost use Rattle.columns.specs.Checked.{checked_sheet};
ghost use Rattle.quick_look.specs.Inner.{Small, side_with, sides_of};

use columns::Checked;
use quick_look::{Side, Sides};

// C / D in billionths, rounded down.
#[tactic(auto, unfolding(model::specs::Density::billion))]
pub(crate) fn rounded_down(cost: u32, deadline: u32) -> u64
    requires { 1 ≤ deadline }
    ensures { result ≡ cost * billion / deadline }
{
    u64::from(cost) * 1_000_000_000 / u64::from(deadline)
}

// The same rounded up, from what it is rounded down: one more where that leaves a rest.
pub(crate) fn rounded_up(cost: u32, deadline: u32, down: u64) -> u64
    requires { (1 ≤ deadline) × (down ≡ cost * billion / deadline) }
    ensures { result ≡ ceiling (cost * billion) deadline }
{
    if down * u64::from(deadline) < u64::from(cost) * 1_000_000_000 {
        down + 1
    } else {
        down
    }
}

// Densities with one more among them.
#[tactic(auto, unfolding(quick_look::specs::Inner::side_with))]
pub(crate) fn with_density(side: Side, density: u64) -> Side
    requires { Small side × (density ≤ 1_000_000_000) }
    ensures { result ≡ side_with side density }
{
    Side {
        sum: side.sum + density,
        largest: side.largest.max(density),
    }
}

// The densities of all rows, each rounded down and each rounded up.
pub(crate) fn both_sides(checked: Checked) -> Sides
    ensures { result ≡ sides_of (checked_sheet checked.entry) }
{
    let mut down = Side { sum: 0, largest: 0 };
    let mut up = Side { sum: 0, largest: 0 };
    for row in 0..checked.rows.count() {
        let cost = checked.rows.cost(row);
        let deadline = checked.rows.deadline(row);
        let low = rounded_down(cost, deadline);
        down = with_density(down, low);
        up = with_density(up, rounded_up(cost, deadline, low));
    }
    Sides { down, up }
}

// The test's left side: the sum and, for each processor but one, the largest.
pub(crate) fn left_side(side: Side, processors: u32) -> u64
    requires { Small side × (1 ≤ processors) × (processors ≤ 64) }
    ensures { result ≡ side.sum + (processors - 1) * side.largest }
{
    side.sum + u64::from(processors - 1) * side.largest
}
