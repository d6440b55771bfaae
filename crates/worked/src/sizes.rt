// The sizes allowed, and one more: what every entry on rows says of them.
use crate::{RTA, densities, exact, say};
use analysis::{AtOnce, Engine, Rounds};
use std::io;

// Rows on processors, and what is asked of them: the one-row question of a row under bounds, and the exact test's horizon.
#[derive(Clone, Copy)]
struct Case<'a> {
    name: &'a str,
    rows: &'a [u32],
    processors: u32,
    bounds: &'a [u32],
    row: u32,
    horizon: u32,
}

impl Case<'_> {
    // The one-row question, of the last row.
    fn one_row(&self, rt: &impl Print) -> io::Result<()> {
        let answer = analysis::one_row(self.rows, self.processors, RTA, self.bounds, self.row);
        println!(rt; "{}, the last row: {}", self.name, say::Row(answer))
    }

    // An engine's marks.
    fn refined(&self, rt: &impl Print, how: &str, engine: &impl Engine) -> io::Result<()> {
        let mut bounds = [0u32; 65];
        let marks = analysis::refine(engine, self.rows, self.processors, RTA, &mut bounds);
        println!(rt; "{}, {how}: {}", self.name, say::Marks(marks))
    }

    // Both writers, into space that 65 rows would fit.
    fn written(&self, rt: &impl Print) -> io::Result<()> {
        let mut out = [0u8; 1372];
        let sheet = sheet::write_sheet(self.rows, self.processors, &mut out);
        println!(rt; "{}, as a sheet: {}", self.name, say::Written(sheet))?;
        let result = result::write_result(self.rows, self.processors, RTA, &mut out);
        println!(rt; "{}, the result: {}", self.name, say::Written(result))
    }

    // Every entry on the same rows.
    fn every_entry(&self, rt: &impl Print) -> io::Result<()> {
        self.one_row(rt)?;
        self.refined(rt, "by rounds", &Rounds)?;
        self.refined(rt, "at once", &AtOnce)?;
        exact::line(rt, self.name, self.rows, self.horizon)?;
        densities::line(rt, self.name, self.rows, self.processors)?;
        self.written(rt)
    }
}

// Every entry on rows (1,1,1), the last of which is at a place.
fn equal_rows(
    rt: &impl Print,
    name: &str,
    rows: &[u32],
    bounds: &[u32],
    row: u32,
) -> io::Result<()> {
    Case {
        name,
        rows,
        processors: 64,
        bounds,
        row,
        horizon: 1,
    }
    .every_entry(rt)
}

// As many rows as are allowed, and one more.
pub(crate) fn row_counts(rt: &impl Print) -> io::Result<()> {
    equal_rows(
        rt,
        "64 rows (1,1,1) on 64 processors",
        &[1; 192],
        &[1; 64],
        63,
    )?;
    equal_rows(
        rt,
        "65 rows (1,1,1) on 64 processors",
        &[1; 195],
        &[1; 65],
        64,
    )
}

// Every entry on two rows, the second of which has the period.
fn second_period(rt: &impl Print, name: &str, period: u32) -> io::Result<()> {
    Case {
        name,
        rows: &[1, 1, 1, 1, 1_000_000, period],
        processors: 2,
        bounds: &[1, 1_000_000],
        row: 1,
        horizon: 1_000_000,
    }
    .every_entry(rt)
}

// As long a period as is allowed, and one more.
pub(crate) fn periods(rt: &impl Print) -> io::Result<()> {
    second_period(rt, "(1,1,1),(1,1000000,1000000) on 2 processors", 1_000_000)?;
    second_period(rt, "(1,1,1),(1,1000000,1000001) on 2 processors", 1_000_001)
}
