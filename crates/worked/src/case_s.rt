// Case S, three rows on two processors, by RTA.
use crate::{RTA, say};
use analysis::{AtOnce, Engine, Rounds};
use std::io;

const ROWS: [u32; 9] = [2, 5, 5, 2, 5, 5, 3, 6, 6];

// One row's answer under given bounds.
fn answer(bounds: [u32; 3], row: u32) -> say::Row {
    say::Row(analysis::one_row(&ROWS, 2, RTA, &bounds, row))
}

// One round: every row's answer under the bounds at its start.
fn round(rt: &impl Print, bounds: [u32; 3]) -> io::Result<()> {
    let [first, second, third] = bounds;
    println!(rt;
        "S, a round from {first},{second},{third}: {},{},{}",
        answer(bounds, 0),
        answer(bounds, 1),
        answer(bounds, 2)
    )
}

// Round by round, from the deadlines to the round that changes nothing.
pub(crate) fn round_by_round(rt: &impl Print) -> io::Result<()> {
    round(rt, [5, 5, 6])?;
    round(rt, [4, 4, 6])?;
    round(rt, [4, 4, 5])
}

// Where an engine ends: the bounds and the marks.
fn end(rt: &impl Print, name: &str, engine: &impl Engine) -> io::Result<()> {
    let mut bounds = [0u32; 3];
    let marks = say::Marks(analysis::refine(engine, &ROWS, 2, RTA, &mut bounds));
    let [first, second, third] = bounds;
    println!(rt; "S {name}: {first},{second},{third}, {marks}")
}

// Both engines.
pub(crate) fn by_either_engine(rt: &impl Print) -> io::Result<()> {
    end(rt, "by rounds", &Rounds)?;
    end(rt, "at once", &AtOnce)
}

// P4 and P5: row 2 under two sets of bounds.
pub(crate) fn last_row(rt: &impl Print) -> io::Result<()> {
    println!(rt; "P4, S row 2 under 5,5,6: {}", answer([5, 5, 6], 2))?;
    println!(rt; "P5, S row 2 under 4,4,6: {}", answer([4, 4, 6], 2))
}
