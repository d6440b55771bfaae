// Steps down a ray: where sweeps lower the same rows by the same amounts again and again, many of them are made at once.
#![tactic(auto)]

ghost use Rattle.std.specs.Prelude.{◌≡◌, ℕ, ◌+◌, ◌*◌, ◌≤◌, ◌<◌, length, get_or};
ghost use Rattle.model.specs.Inner.{along};
ghost use Rattle.refinement.specs.Asked.{sheet, ask, Underway};
ghost use Rattle.refinement.specs.Inner.Ray.{OnWay, Reaches, Roomy, Lowered, Descended};

use bounded::Bounded;
use refinement::Asked;
pub use slopes::Drops;
use slopes::{Capped, Ray, Way, steps_below};

// For how many steps a row's turn allows the next one: its sum stays below what it has left.
pub fn row_reach(given: &Bounded, drops: &Drops, row: u32, most: u32) -> u32
    requires { OnWay (sheet given.now.asked) given.now.bounds.now drops.now.each row most }
    ensures { Reaches (sheet given.now.asked) (ask given.now.asked) given.now.bounds.now drops.now.each row most result }
{
    if most == 0 {
        return 0;
    }
    let asked = given.asked;
    let fall = drops.each[row as usize];
    let first = given.bound(row) - fall;
    let way = Way {
        ray: Ray {
            rows: asked.rows,
            bounds: given.bounds,
            drops,
        },
        row,
        window: given.deadline(row),
        first,
        fall,
        most,
        method: asked.method,
    };
    let cap = way.cap();
    let line = Capped { way: &way, cap }.sum();
    let left = first - given.cost(row) + 1;
    steps_below(line, asked.processors * fall, asked.processors * left)
}

// How many of its drops a row has above its cost.
pub fn row_room(given: &Bounded, drops: &Drops, row: u32) -> u32
    requires { row < (sheet given.now.asked).rows }
    ensures { result * get_or drops.now.each row 0 + (sheet given.now.asked).cost row ≤ get_or given.now.bounds.now row 0 }
{
    let drop = drops.each[row as usize];
    if drop == 0 {
        return 1_000_000;
    }
    (given.bound(row) - given.cost(row)) / drop
}

// How many steps every row has room for.
pub fn most_steps(given: &Bounded, drops: &Drops) -> u32
    ensures { Roomy (sheet given.now.asked) given.now.bounds.now drops.now.each result }
{
    let mut most: u32 = 1_000_000;
    for row in 0..given.count() {
        most = most.min(row_room(given, drops, row));
    }
    most
}

// One step down the ray, row by row, as long as each row's turn allows it, and how many more may be made at once. A row that is not
// allowed its drop loses it, and the ray ends there.
pub fn ray_pass(asked: &Asked, bounds: &mut [u32], drops: &mut Drops, most: u32) -> u32
    requires { Underway asked.now bounds.old × Roomy (sheet asked.now) bounds.old drops.old.each most }
    ensures { Lowered (sheet asked.now) (ask asked.now) bounds.old bounds.new drops.new.each result }
{
    let mut steps = most;
    for row in 0..asked.rows.count() {
        let drop = drops.each[row as usize];
        if drop != 0 {
            let given = Bounded {
                asked: *asked,
                bounds,
            };
            let reach = row_reach(&given, drops, row, steps);
            if reach == 0 {
                drops.put(row, 0);
                return 0;
            }
            steps = reach;
            bounds[row as usize] -= drop;
        }
    }
    steps.saturating_sub(1)
}

// So many steps down at once, for every row.
pub fn step_down(bounds: &mut [u32], drops: &Drops, steps: u32)
    requires { (length bounds.old ≤ 64) × ((i : ℕ) → i < length bounds.old → steps * get_or drops.now.each i 0 ≤ get_or bounds.old i 0) }
    ensures { bounds.new ≡ along (length bounds.old) bounds.old drops.now.each steps }
{
    for (row, bound) in bounds.iter_mut().enumerate() {
        *bound -= steps * drops.each[row];
    }
}

// A guess at a row's next drop: by turns the least of its drops since the last ray and the last one; none where that would lead below its
// cost.
pub fn next_drop(seen: u32, before: u32, bound: u32, cost: u32, sweeps: u32) -> u32
    ensures { result ≤ bound }
{
    let last = before.saturating_sub(bound);
    let drop = match sweeps {
        1..=3 => seen.min(last),
        _ => last,
    };
    let room = bound.saturating_sub(cost);
    if room < drop { 0 } else { drop }
}

// Guesses every row's next drop after a sweep, from the bounds before it.
pub fn note_drops(given: &Bounded, before: &[u32], drops: &mut Drops, sweeps: u32)
    requires { length before.now ≡ (sheet given.now.asked).rows }
{
    for row in 0..given.count() {
        let at = row as usize;
        let bound = given.bounds[at];
        let drop = next_drop(drops.each[at], before[at], bound, given.cost(row), sweeps);
        drops.put(row, drop);
    }
}

// One ray: a pass, and the further steps that it found to be allowed, whose number is returned.
pub fn ray_once(asked: &Asked, bounds: &mut [u32], drops: &mut Drops) -> u32
    requires { Underway asked.now bounds.old }
    ensures { Descended (sheet asked.now) (ask asked.now) bounds.old bounds.new }
{
    let given = Bounded {
        asked: *asked,
        bounds,
    };
    let most = most_steps(&given, drops);
    let further = ray_pass(asked, bounds, drops, most);
    step_down(bounds, drops, further);
    further
}

// Rays until one goes further than a step, or every row may have lost its drop.
pub fn descend(asked: &Asked, bounds: &mut [u32], drops: &mut Drops)
    requires { Underway asked.now bounds.old }
    ensures { Descended (sheet asked.now) (ask asked.now) bounds.old bounds.new }
{
    for _ in 0..asked.rows.count() {
        let further = ray_once(asked, bounds, drops);
        if 0 < further {
            return;
        }
    }
}

// After every fourth sweep the drops noted are followed down; else nothing is done.
pub fn hasten(asked: &Asked, bounds: &mut [u32], drops: &mut Drops, sweeps: u32)
    requires { Underway asked.now bounds.old }
    ensures { Descended (sheet asked.now) (ask asked.now) bounds.old bounds.new }
{
    if sweeps % 4 != 0 {
        return;
    }
    descend(asked, bounds, drops);
}
