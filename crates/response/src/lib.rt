// One row's answer: BCL by its formula, RTA by climbing from the cost.
#![tactic(auto)]

mod prepared;

ghost use Rattle.std.specs.Prelude.{◌≡◌, ℕ, ◌≤◌, ◌<◌, length, get_or};
ghost use Rattle.laws.specs.Sum.{total};
ghost use Rattle.rows.specs.Words.{found_of};
ghost use Rattle.refinement.specs.Inner.{listed_share, term_of};
ghost use Rattle.refinement.specs.Asked.{sheet, ask};

use bounded::Bounded;
use interference::work_in_time;
pub use prepared::Prepared;
use rows::Method;

// What another row adds at X. Where the share or the cap is 0 or 1 it is the least, and no division is needed.
// Any shares and any X within 1,000,000, and no Prepared: that would ask for a row's own shares, and for an X from its cost to its deadline.
pub fn term(given: &Bounded, taken: &[u32], other: u32, x: u32, cap: u32) -> u32
    requires { let s = sheet given.now.asked in (other < s.rows) × (length taken.now ≡ s.rows) × (1 ≤ x) × (x ≤ 1_000_000) }
    ensures { result ≡ term_of (sheet given.now.asked) given.now.bounds.now (listed_share taken.now) x cap other }
{
    let most = taken[other as usize].min(cap);
    if most <= 1 {
        return most;
    }
    let cost = given.cost(other);
    let time = x + given.bound(other) - cost;
    work_in_time(cost, given.period(other), time).min(most)
}

// What all other rows add at X.
pub fn sum_of_terms(given: &Bounded, taken: &[u32], x: u32, cap: u32) -> u32
    requires { (length taken.now ≡ (sheet given.now.asked).rows) × (1 ≤ x) × (x ≤ 1_000_000) × (cap ≤ 1_000_000) }
    ensures { let s = sheet given.now.asked in result ≡ total (term_of s given.now.bounds.now (listed_share taken.now) x cap) s.rows }
{
    let mut sum = 0;
    for other in 0..given.count() {
        sum += term(given, taken, other, x, cap);
    }
    sum
}

// The sum of what the other rows take at most.
pub fn sum_of_shares(taken: &[u32]) -> u32
    requires { (length taken.now ≤ 64) × ((i : ℕ) → i < length taken.now → get_or taken.now i 0 ≤ 1_000_000) }
    ensures { result ≡ total (λ i. get_or taken.now i 0) (length taken.now) }
{
    taken.iter().sum()
}

// One row's answer by either method, with space for what each other row takes.
pub fn answer_in(given: &Bounded, row: u32, space: &mut [u32]) -> Option<u32>
    requires { let s = sheet given.now.asked in (row < s.rows) × (length space.old ≡ s.rows) }
    ensures { result ≡ found_of (ask given.now.asked row given.now.bounds.now) }
{
    let prepared = Prepared::of_row(given, row, space);
    match given.asked.method {
        Method::Bcl => prepared.bcl_row(),
        Method::Rta => prepared.rta_row(),
    }
}

// One row's answer by either method.
pub fn answer_row(given: &Bounded, row: u32) -> Option<u32>
    requires { row < (sheet given.now.asked).rows }
    ensures { result ≡ found_of (ask given.now.asked row given.now.bounds.now) }
{
    // An array and no Vec: no heap.
    let mut taken = [0; 64];
    let end = given.bounds.len();
    answer_in(given, row, &mut taken[..end])
}
