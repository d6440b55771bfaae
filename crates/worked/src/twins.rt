// Two rows with equal numbers, (3,4,4): each is an other row to its twin.
use crate::{BCL, RTA, exact, say};
use std::io;

const ROWS: [u32; 6] = [3, 4, 4, 3, 4, 4];

// Both rows' answers under their deadlines.
// The method by its number, as an entry takes it.
fn both(rt: &impl Print, name: &str, processors: u32, method: u32) -> io::Result<()> {
    let bounds = [4u32; 2];
    let first = say::Row(analysis::one_row(&ROWS, processors, method, &bounds, 0));
    let second = say::Row(analysis::one_row(&ROWS, processors, method, &bounds, 1));
    println!(rt; "{name}: {first}, {second}")
}

// P6: one processor is not enough, by either method.
pub(crate) fn on_one_processor(rt: &impl Print) -> io::Result<()> {
    both(rt, "P6, two rows (3,4,4) on 1 processor, RTA", 1, RTA)?;
    both(rt, "P6, two rows (3,4,4) on 1 processor, BCL", 1, BCL)
}

// P7: two are.
pub(crate) fn on_two_processors(rt: &impl Print) -> io::Result<()> {
    both(rt, "P7, two rows (3,4,4) on 2 processors, RTA", 2, RTA)?;
    both(rt, "P7, two rows (3,4,4) on 2 processors, BCL", 2, BCL)
}

// P8: the exact test misses at the common deadline.
pub(crate) fn exactly(rt: &impl Print) -> io::Result<()> {
    exact::line(rt, "P8, two rows (3,4,4)", &ROWS, 4)
}
