// A row's way down a ray.
ghost use Rattle.std.specs.Prelude.{◌≤◌};
ghost use Rattle.columns.specs.Rows.{sheet_in};
ghost use Rattle.refinement.specs.Inner.Ray.{OnWay, Aimed};

use crate::{Drops, Line};
use columns::Columns;
use rows::Method;

// Rows on a ray: their bounds where it begins, and their drops.
#[derive(Clone, Copy)]
pub struct Ray<'a> {
    pub rows: Columns<'a>,
    pub bounds: &'a [u32],
    pub drops: &'a Drops,
}

// A row's way down a ray: its place, its deadline window, where its first step leads, its drop, the steps asked for, and the method.
#[derive(Clone, Copy)]
pub struct Way<'a> {
    pub ray: Ray<'a>,
    pub row: u32,
    pub window: u32,
    pub first: u32,
    pub fall: u32,
    pub most: u32,
    pub method: Method,
    pub ghost some_step: { 1 ≤ most },
    pub ghost on_way: { OnWay (sheet_in ray.rows) ray.bounds.now ray.drops.now.each row most },
    pub ghost aimed: { Aimed (sheet_in ray.rows) ray.bounds.now ray.drops.now.each row window first fall },
}

impl Way<'_> {
    ghost use Rattle.slopes.specs.Ray.{Caps};

    // The most that another row may add, along the ray: fixed for BCL, falling with the row itself for RTA.
    pub fn cap(&self) -> Line
        ensures { Caps self.now result }
    {
        let cost = self.ray.rows.cost(self.row);
        match self.method {
            Method::Bcl => Line {
                value: self.window - cost + 1,
                slope: 0,
                limit: self.most,
            },
            Method::Rta => Line {
                value: self.first - cost + 1,
                slope: self.fall,
                limit: self.most,
            },
        }
    }
}
