// Rows in columns that are as long as one another: what every function behind the checks is given.
#![tactic(auto)]

mod checked;
mod sizes;

ghost use Rattle.std.specs.Prelude.{◌≡◌, ◌≤◌, length};

pub use checked::Checked;
pub use sizes::check_sizes;

// From 1 to 64 rows: their costs, their deadlines and their periods, each by the row's place.
// Three columns and no list of rows: that is how C lends them.
#[derive(Clone, Copy)]
pub struct Columns<'a> {
    pub costs: &'a [u32],
    pub deadlines: &'a [u32],
    pub periods: &'a [u32],
    pub ghost deadlines_each: { length deadlines.now ≡ length costs.now },
    pub ghost periods_each: { length periods.now ≡ length costs.now },
    pub ghost some_row: { 1 ≤ length costs.now },
    pub ghost few: { length costs.now ≤ 64 },
}

impl Columns<'_> {
    ghost use Rattle.std.specs.Prelude.{◌≡◌, ◌<◌};
    ghost use Rattle.columns.specs.Rows.{sheet_in};

    // How many rows there are.
    #[tactic(auto, unfolding(model::specs::Sheet::columns))]
    pub fn count(&self) -> u32
        ensures { result ≡ (sheet_in self.now).rows }
    {
        self.costs.len() as u32
    }

    // The cost of the row at a place.
    #[tactic(auto, unfolding(model::specs::Sheet::columns))]
    pub fn cost(&self, row: u32) -> u32
        requires { row < (sheet_in self.now).rows }
        ensures { result ≡ (sheet_in self.now).cost row }
    {
        self.costs[row as usize]
    }

    // The relative deadline of the row at a place.
    #[tactic(auto, unfolding(model::specs::Sheet::columns))]
    pub fn deadline(&self, row: u32) -> u32
        requires { row < (sheet_in self.now).rows }
        ensures { result ≡ (sheet_in self.now).deadline row }
    {
        self.deadlines[row as usize]
    }

    // The period of the row at a place.
    #[tactic(auto, unfolding(model::specs::Sheet::columns))]
    pub fn period(&self, row: u32) -> u32
        requires { row < (sheet_in self.now).rows }
        ensures { result ≡ (sheet_in self.now).period row }
    {
        self.periods[row as usize]
    }
}
