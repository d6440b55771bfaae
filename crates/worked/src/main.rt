// Every number of the scope document's list of runs, every one-row and one-processor case of its table, and the density test's numbers, taken
// through the public entries and written one to a line.
#![tactic(auto)]

mod case_s;
mod densities;
mod exact;
mod say;
mod sizes;
mod twins;

use std::io;

// The methods by their numbers.
const BCL: u32 = 0;

const RTA: u32 = 1;

fn main(rt: HostRuntime) -> io::Result<()> {
    case_s::round_by_round(&rt)?;
    case_s::by_either_engine(&rt)?;
    case_s::last_row(&rt)?;
    twins::on_one_processor(&rt)?;
    twins::on_two_processors(&rt)?;
    twins::exactly(&rt)?;
    exact::fitting(&rt)?;
    exact::clean_horizon(&rt)?;
    exact::one_row(&rt)?;
    exact::common_multiple(&rt)?;
    exact::longest_horizon(&rt)?;
    densities::case_s(&rt)?;
    densities::unsure(&rt)?;
    densities::equal(&rt)?;
    sizes::row_counts(&rt)?;
    sizes::periods(&rt)
}
