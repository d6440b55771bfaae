// The busy length, climbed from 1: each length that is not its own busy sum is replaced by that sum.
ghost use Rattle.std.specs.Prelude.{◌≡◌, ◌≤◌, ◌<◌};
ghost use Rattle.model.specs.Demand.{busy_of, busy, busy_length};
ghost use Rattle.columns.specs.Checked.{checked_sheet};
ghost use Rattle.rows.specs.Words.{found_of};

use climb::climb;
use columns::Checked;

// A row's part of the busy sum: ceil(length / T) × C. From length 1 on the ceiling is one more than floor((length − 1) / T).
pub(crate) fn busy_part(checked: Checked, row: u32, length: u32) -> u32
    requires { (row < (checked_sheet checked).rows) × (1 ≤ length) × (length ≤ 16_777_216) }
    ensures { result ≡ busy_of (checked_sheet checked.entry) length row }
{
    ((length - 1) / checked.rows.period(row) + 1) * checked.rows.cost(row)
}

// The sum of ceil(length / T) × C.
pub(crate) fn busy_sum(checked: Checked, length: u32) -> u32
    requires { (1 ≤ length) × (length ≤ 16_777_216) }
    ensures { result ≡ busy (checked_sheet checked.entry) length }
{
    let mut sum = 0;
    for row in 0..checked.rows.count() {
        sum += busy_part(checked, row, length);
    }
    sum
}

// The busy length, if it is within the horizon.
pub(crate) fn busy_length(checked: Checked, horizon: u32) -> Option<u32>
    requires { horizon ≤ 16_777_216 }
    ensures { result ≡ found_of (busy_length (checked_sheet checked.entry) horizon) }
{
    climb(|length| busy_sum(checked, length), 1, horizon)
}
