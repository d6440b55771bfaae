// The density test.
use crate::say;
use std::io;

// One line: what is asked, and what the test says.
pub(crate) fn line(rt: &impl Print, name: &str, rows: &[u32], processors: u32) -> io::Result<()> {
    let answer = say::Dense(density::density(rows, processors));
    println!(rt; "{name}, by densities: {answer}")
}

// S: 1.8 against 2; and with a row more than fits, 2.2.
pub(crate) fn case_s(rt: &impl Print) -> io::Result<()> {
    line(rt, "S on 2 processors", &[2, 5, 5, 2, 5, 5, 3, 6, 6], 2)?;
    line(
        rt,
        "S and a third (2,5,5) on 2 processors",
        &[2, 5, 5, 2, 5, 5, 3, 6, 6, 2, 5, 5],
        2,
    )
}

// Exactly 1, and just above it: rounding leaves it open.
pub(crate) fn unsure(rt: &impl Print) -> io::Result<()> {
    line(
        rt,
        "(1,3,3),(1,3,3),(1,3,3) on 1 processor",
        &[1, 3, 3, 1, 3, 3, 1, 3, 3],
        1,
    )?;
    line(
        rt,
        "(1,999999,999999),(999999,1000000,1000000) on 1 processor",
        &[1, 999_999, 999_999, 999_999, 1_000_000, 1_000_000],
        1,
    )
}

// Exactly 1 without rounding: equality meets the test.
pub(crate) fn equal(rt: &impl Print) -> io::Result<()> {
    line(rt, "(1,1,1) on 1 processor", &[1, 1, 1], 1)?;
    line(rt, "(1,1,1) on 64 processors", &[1, 1, 1], 64)?;
    line(rt, "(1,1,1) on 65 processors", &[1, 1, 1], 65)
}
