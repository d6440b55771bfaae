// What other rows add on a row's way down.
ghost use Rattle.slopes.specs.Ray.{Caps};

use crate::{Dropping, Line, Way, lower_line};
use rows::Method;

// A row's way down, and a line over the most that another row may add on it.
#[derive(Clone, Copy)]
pub struct Capped<'a> {
    pub way: &'a Way<'a>,
    pub cap: Line,
    pub ghost over: { Caps way.now cap },
}

impl Capped<'_> {
    ghost use Rattle.std.specs.Prelude.{◌<◌};
    ghost use Rattle.columns.specs.Rows.{sheet_in};
    ghost use Rattle.slopes.specs.Ray.{Covers, Adds, Sums};

    // What another row adds along the ray: the least of its share, the cap and, for RTA, its work.
    pub fn term(&self, other: u32) -> Line
        requires { other < (sheet_in self.now.way.now.ray.rows).rows }
        ensures { Covers self.now.way.now other result }
    {
        let way = self.way;
        let rows = &way.ray.rows;
        let row = Dropping {
            cost: rows.cost(other),
            deadline: rows.deadline(other),
            period: rows.period(other),
            bound: way.ray.bounds[other as usize],
            drop: way.ray.drops.each[other as usize],
        };
        let share = row.share_line(way.window, way.most);
        let capped = lower_line(share, self.cap);
        match way.method {
            Method::Bcl => capped,
            Method::Rta => {
                let time = way.first + row.bound - row.cost;
                let work = row.work_line(time, way.fall + row.drop, way.most);
                lower_line(work, capped)
            }
        }
    }

    // The same for every other row; the row itself adds nothing.
    pub fn other(&self, other: u32) -> Line
        requires { other < (sheet_in self.now.way.now.ray.rows).rows }
        ensures { Adds self.now.way.now other result }
    {
        if other == self.way.row {
            return Line {
                value: 0,
                slope: 0,
                limit: self.way.most,
            };
        }
        self.term(other)
    }

    // What all other rows add along the ray, under one line.
    pub fn sum(&self) -> Line
        ensures { Sums self.now.way.now result }
    {
        let mut sum = Line {
            value: 0,
            slope: 0,
            limit: self.way.most,
        };
        for other in 0..self.way.ray.rows.count() {
            let line = self.other(other);
            sum.value += line.value;
            sum.slope += line.slope;
            sum.limit = line.limit.min(sum.limit);
        }
        sum
    }
}
