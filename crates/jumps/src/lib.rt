// RTA by jumps: climbs as the plain method does, but past every X that the terms at hand exclude.
#![tactic(auto)]

ghost use Rattle.std.specs.Prelude.{◌≡◌, ℕ, ◌+◌, ◌*◌, ◌-◌, ◌≤◌, ◌<◌, min, leb, length, get_or};
ghost use Rattle.laws.specs.Sum.{total};
ghost use Rattle.model.specs.Answer.{rta_answer};
ghost use Rattle.rows.specs.Words.{found_of};
ghost use Rattle.refinement.specs.Asked.{sheet};
ghost use Rattle.refinement.specs.Inner.{Rooms, Jumped};
ghost use Rattle.refinement.specs.Inner.Kept.{KeptNumbers, line_from, line_at};
ghost use Rattle.pending.specs.Added.{added, ExcludedBy};

use bounded::Bounded;
use pending::{Pending, Space, Trial};
use refinement::Other;

mod sought;

pub use sought::Sought;

// The rooms below a number of steps, added up, and how many are no smaller.
#[derive(Clone, Copy)]
pub struct Split {
    pub full: u32,
    pub wide: u32,
}

// 1 where a room lets one through at every step, else 0.
// A number and no bool: it is added up.
pub fn lets_all(room: u32, far: u32) -> u32
    ensures { (result ≤ 1) × (result * far ≤ min far room) }
{
    u32::from(far <= room)
}

// How much all rooms let through in so many steps: the small ones wholly, of the others one a step.
pub fn split_rooms(room: &[u32], far: u32) -> Split
    requires { Rooms room.now }
    ensures exact { result.full + result.wide * far ≡ total (λ i. min far (get_or room.now i 0)) (length room.now) }
    ensures fits { (result.full ≤ 64_000_000) × (result.wide ≤ 64) }
{
    let mut sum = 0;
    let mut wide = 0;
    for &here in room {
        sum += here.min(far);
        wide += lets_all(here, far);
    }
    Split {
        full: sum - wide * far,
        wide,
    }
}

// How many steps are excluded at once: the longest jump that Newton's rule meets, from what all rooms together pay for downward, on which the
// sum keeps up.
pub fn jump(room: &[u32], gain: u32, all: u32, processors: u32, most: u32) -> u32
    requires { Rooms room.now × (gain ≤ 64_000_000) × (1 ≤ processors) × (processors ≤ 64) × (most ≤ 1_000_000) }
    ensures { Jumped room.now gain processors most result }
{
    let mut far = most.min(all / processors);
    loop {
        let split = split_rooms(room, far);
        let wide = split.wide;
        let sure = gain + split.full;
        if processors * far <= sure + wide * far {
            return far;
        }
        far = sure / (processors - wide);
    }
}

// What the line below a row's work gives at X: its cost / period of the time, within its share and the cap, in parts of 2^32.
pub fn line(other: &Other, trial: Trial) -> u64
    requires { KeptNumbers other.now }
    ensures { result ≡ line_from other.now trial.x trial.cap }
{
    let most = 4_294_967_296 * u64::from(other.share.min(trial.cap));
    let slope = u64::from(other.cost) * 4_294_967_296 / u64::from(other.period);
    let level = slope * u64::from(trial.x + other.ahead);
    level.min(most)
}

// What the lines of the rows kept give at X.
// A function, as those below, and no method: the rows kept are a type of the crate below, which knows of no lines, jumps or climbs.
pub fn line_sum(pending: &Pending, trial: Trial) -> u64
    requires { trial.cap ≤ 1_000_000 }
    ensures { result ≡ total (line_at pending.now.others trial.x trial.cap) pending.now.left }
{
    let mut sum = 0;
    for other in &pending.others[..pending.left as usize] {
        sum += line(other, trial);
    }
    sum
}

// Whether the lines, with what is settled, show that X does not solve the equation.
pub fn line_excludes(pending: &Pending, processors: u32, trial: Trial) -> bool
    requires { (processors ≤ 64) × (trial.cap ≤ 1_000_000) }
    ensures { result ≡ leb (4_294_967_296 * (processors * trial.cap)) (4_294_967_296 * pending.now.settled + total (line_at pending.now.others trial.x trial.cap) pending.now.left) }
{
    let sum = line_sum(pending, trial);
    4_294_967_296 * u64::from(processors * trial.cap)
        <= 4_294_967_296 * u64::from(pending.settled) + sum
}

// Some X from the present one to the deadline with which and with the present one the lines exclude all between: looked for by halving the
// way down to 64, and the present one where none is found. That no farther one would do is not claimed.
pub fn far_from(pending: &Pending, sought: Sought, x: u32) -> u32
    requires { (sought.own ≤ x) × (x ≤ sought.top) }
    ensures { (x ≤ result) × (result ≤ sought.top) × ExcludedBy pending.now sought.processors sought.own x result }
{
    let here = sought.at(x);
    if !line_excludes(pending, sought.processors, here) {
        return x;
    }
    let mut far = sought.top - x;
    while 64 < far {
        let there = sought.at(x + far);
        if line_excludes(pending, sought.processors, there) {
            return x + far;
        }
        far /= 2;
    }
    x
}

// Every 16th step the rows that add their whole share are left out, and X goes as far as the lines exclude.
pub fn leap_far(pending: &mut Pending, sought: Sought, x: u32, step: u32) -> u32
    requires { (sought.own ≤ x) × (x ≤ sought.top) }
    ensures fewer { pending.new.left ≤ pending.old.left }
    ensures sums { (d : ℕ) → added pending.new (x + d) (x - sought.own + 1 + d) ≡ added pending.old (x + d) (x - sought.own + 1 + d) }
    ensures goes { (x ≤ result) × (result ≤ sought.top) × ExcludedBy pending.new sought.processors sought.own x result }
{
    if step % 16 == 0 {
        pending.keep_pending(sought.at(x));
        far_from(pending, sought, x)
    } else {
        x
    }
}

// The next X to look at: X itself only where its right side does not pass it, else a later one, and all that is passed is excluded. That it
// is the first that is not excluded is not claimed.
pub fn onward(pending: &Pending, sought: Sought, x: u32, room: &mut [u32]) -> u32
    requires { (sought.own ≤ x) × (x ≤ sought.top) × (1 ≤ sought.processors) × (pending.now.left ≤ length room.old) }
    ensures goes { (x ≤ result) × ExcludedBy pending.now sought.processors sought.own x result }
    ensures stands { result ≡ x → added pending.now x (x - sought.own + 1) < sought.processors * (x - sought.own + 1) }
{
    let trial = sought.at(x);
    let here = pending.fill_rooms(trial, room);
    let supply = sought.processors * trial.cap;
    if here.term < supply {
        return x;
    }
    let gain = here.term - supply;
    let all = here.top - supply;
    let between = &room[..pending.left as usize];
    x + jump(between, gain, all, sought.processors, sought.top - x) + 1
}

// RTA: climbs from the cost past what is excluded to the least X that is its own right side, if there is one up to the deadline.
pub fn rta_quickly(given: &Bounded, row: u32, space: &mut Space) -> Option<u32>
    requires { row < (sheet given.now.asked).rows }
    ensures { result ≡ found_of (rta_answer (sheet given.now.asked) given.now.asked.processors row given.now.bounds.now) }
{
    let sought = Sought::of_row(&given.asked, row);
    space.pending.meet_others(given, row);
    let mut x = sought.own;
    let mut step = 0u32;
    while x <= sought.top {
        step += 1;
        let from = leap_far(&mut space.pending, sought, x, step);
        let next = onward(&space.pending, sought, from, &mut space.room);
        if next == from {
            return Some(next);
        }
        x = next;
    }
    None
}
