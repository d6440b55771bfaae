// The exact test for one processor.
use crate::say;
use std::io;

// One line: what is asked, and what the test says.
pub(crate) fn line(rt: &impl Print, name: &str, rows: &[u32], horizon: u32) -> io::Result<()> {
    let answer = say::Exact(demand::one_processor(rows, horizon));
    println!(rt; "{name}, horizon {horizon}: {answer}")
}

// P9: the busy length is the horizon.
pub(crate) fn fitting(rt: &impl Print) -> io::Result<()> {
    line(rt, "P9, (1,2,4),(2,3,4)", &[1, 2, 4, 2, 3, 4], 3)
}

// P10: a clean horizon is no answer, and the next length misses.
pub(crate) fn clean_horizon(rt: &impl Print) -> io::Result<()> {
    let rows = [2u32, 2, 4, 2, 3, 4];
    line(rt, "P10, (2,2,4),(2,3,4)", &rows, 2)?;
    line(rt, "P10, (2,2,4),(2,3,4)", &rows, 3)
}

// One row, one length short of its busy length and at it.
pub(crate) fn one_row(rt: &impl Print) -> io::Result<()> {
    line(rt, "(5,5,10)", &[5, 5, 10], 4)?;
    line(rt, "(5,5,10)", &[5, 5, 10], 5)
}

// Rows that use the processor wholly: the busy length is their common multiple.
pub(crate) fn common_multiple(rt: &impl Print) -> io::Result<()> {
    let rows = [15u32, 70, 75, 334, 668, 668, 54, 178, 180];
    line(rt, "(15,70,75),(334,668,668),(54,178,180)", &rows, 150_299)?;
    line(rt, "(15,70,75),(334,668,668),(54,178,180)", &rows, 150_300)
}

// The longest horizon, where rows fit early and where their common multiple lies far beyond it; and one more.
pub(crate) fn longest_horizon(rt: &impl Print) -> io::Result<()> {
    let halves = [499_999u32, 999_998, 999_998, 500_000, 1_000_000, 1_000_000];
    line(rt, "(5,5,10)", &[5, 5, 10], 16_777_216)?;
    line(
        rt,
        "(499999,999998,999998),(500000,1000000,1000000)",
        &halves,
        16_777_216,
    )?;
    line(rt, "(5,5,10)", &[5, 5, 10], 16_777_217)
}
