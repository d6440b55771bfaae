// Which lengths are clear, shown backwards. A demand of s in a length of s or more clears every length from s to it, so the next length to
// look at is s - 1. Rows are looked at in groups of four, and a group only where a deadline of it was passed since it was noted: what is
// noted may be too much, never too little.
#![tactic(auto)]

mod notes;

ghost use Rattle.std.specs.Prelude.{◌≡◌, ◌≤◌, ◌+◌, ◌-◌, ◌<◌};
ghost use Rattle.columns.specs.Checked.{checked_sheet};
ghost use Rattle.verdict.specs.Inner.{jobs_within, look_of, Clear, Narrower};
ghost use Rattle.laws.specs.Sum.{total};
ghost use Rattle.model.specs.Demand.{demand_of};

use columns::Checked;
pub use notes::Notes;
use verdict::{Look, Note};

// The jobs of a row with deadlines within the length: 0 if the length is below D, else floor((length − D) / T) + 1. Below D + T that is 1,
// and nothing is divided.
pub fn jobs_within(length: u32, deadline: u32, period: u32) -> u32
    requires some_period { 1 ≤ period }
    requires within { length ≤ 16_777_216 }
    ensures { result ≡ jobs_within deadline period length }
{
    if length < deadline {
        return 0;
    }
    let past = length - deadline;
    if past < period {
        return 1;
    }
    past / period + 1
}

// Looks at the row at a place in the length. Before its first deadline it has no job due.
pub fn look_at(checked: Checked, row: u32, length: u32) -> Look
    requires { (row < (checked_sheet checked).rows) × (length ≤ 16_777_216) }
    ensures { result ≡ look_of (checked_sheet checked.entry) length row }
{
    let deadline = checked.rows.deadline(row);
    if length < deadline {
        return Look {
            demand: 0,
            since: 0,
            next: deadline,
        };
    }
    let period = checked.rows.period(row);
    let jobs = jobs_within(length, deadline, period);
    let next = deadline + jobs * period;
    Look {
        demand: jobs * checked.rows.cost(row),
        since: next.saturating_sub(period),
        next,
    }
}

// What is left between two ends: every length up to `clear` is clear, and backward steps from behind stopped at `stopped`.
#[derive(Clone, Copy)]
pub struct Gap {
    pub clear: u32,
    pub stopped: u32,
}

// Looks at so many rows from a place on, in a length.
pub fn look_at_group(checked: Checked, first: u32, size: u32, length: u32) -> Note
    requires { (size ≤ (checked_sheet checked).rows - first) × (length ≤ 16_777_216) }
    ensures { result.demand ≡ total (λ j. demand_of (checked_sheet checked.entry) length (first + j)) size }
{
    let mut demand = 0;
    let mut since = 0;
    for row in first..first + size {
        let look = look_at(checked, row, length);
        demand += look.demand;
        since = since.max(look.since);
    }
    Note { demand, since }
}

// Narrows a gap by backward steps from a length within it. Nothing is noted at the start, so every group is looked at in that length.
pub fn narrowed(checked: Checked, gap: Gap, middle: u32) -> Gap
    requires { (middle ≤ 16_777_216) × (gap.clear < middle) × (middle < gap.stopped) }
    ensures { Narrower (checked_sheet checked.entry) gap.clear gap.stopped result.clear result.stopped }
{
    let most = Note {
        demand: 67_108_864,
        since: 16_777_217,
    };
    let mut notes = Notes {
        checked,
        length: middle,
        groups: [most; 16],
    };
    let reached = notes.clear_down_to(gap.clear);
    if reached <= gap.clear {
        Gap {
            clear: middle,
            ..gap
        }
    } else {
        Gap {
            stopped: reached,
            ..gap
        }
    }
}

// A length up to which all are clear: the whole range is tried first, then half of each gap that is left.
pub fn clear_up_to(checked: Checked, last: u32) -> u32
    requires { last ≤ 16_777_216 }
    ensures { (result ≤ last) × Clear (checked_sheet checked.entry) 0 result }
{
    let mut gap = Gap {
        clear: 0,
        stopped: last + 1,
    };
    let mut middle = last;
    while gap.clear < middle {
        gap = narrowed(checked, gap, middle);
        middle = gap.clear + (gap.stopped - gap.clear) / 2;
    }
    gap.clear
}
