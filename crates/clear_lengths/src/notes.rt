// What is noted of the rows, in groups of four, for a length that falls as backward steps are taken.
ghost use Rattle.std.specs.Prelude.{◌≤◌};
ghost use Rattle.columns.specs.Checked.{checked_sheet};
ghost use Rattle.verdict.specs.Inner.{Noted};

use crate::look_at_group;
use columns::Checked;
use verdict::Note;

// A note of each group, no less than the group demands in the length.
// An array and no Vec: no heap. Filled where it stands.
#[derive(Drop)]
pub struct Notes<'a> {
    pub checked: Checked<'a>,
    pub length: u32,
    pub groups: [Note; 16],
    pub ghost within: { length ≤ 16_777_216 },
    pub ghost noted: { Noted (checked_sheet checked) length groups },
}

impl Notes<'_> {
    ghost use Rattle.std.specs.Prelude.{◌≡◌, ◌≤◌, ◌<◌};
    ghost use Rattle.columns.specs.Checked.{checked_sheet};
    ghost use Rattle.model.specs.Demand.{demand};
    ghost use Rattle.verdict.specs.Inner.{Clear, group_demand};

    // At least a group's demand: as noted, or noted anew where the length is before the deadline noted.
    pub fn group_demand(&mut self, group: u32) -> u32
        requires { group < 16 }
        ensures lower_bound { (group_demand (checked_sheet self.old.checked) self.old.length group ≤ result) × (result ≤ 67_108_864) }
        ensures kept { (self.new.checked ≡ self.old.checked) × (self.new.length ≡ self.old.length) }
    {
        let at = group as usize;
        if self.groups[at].since <= self.length {
            return self.groups[at].demand;
        }
        let first = 4 * group;
        let left = self.checked.rows.count().saturating_sub(first);
        let note = look_at_group(self.checked, first, left.min(4), self.length);
        self.groups[at] = note;
        note.demand
    }

    // At least the sheet's demand.
    pub fn noted_demand(&mut self) -> u32
        ensures lower_bound { demand (checked_sheet self.old.checked) self.old.length ≤ result }
        ensures kept { (self.new.checked ≡ self.old.checked) × (self.new.length ≡ self.old.length) }
    {
        let mut sum = 0;
        for group in 0..self.checked.rows.count().div_ceil(4) {
            sum += self.group_demand(group);
        }
        sum
    }

    // How far down backward steps come from the length: to the low one or below it, or to the first whose demand is above it.
    pub fn clear_down_to(&mut self, low: u32) -> u32
        ensures { (result ≤ self.old.length) × Clear (checked_sheet self.old.checked) result self.old.length }
    {
        while low < self.length {
            let sum = self.noted_demand();
            if self.length < sum {
                return self.length;
            }
            self.length = sum.saturating_sub(1);
        }
        self.length
    }
}
