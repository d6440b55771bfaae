// What rows fall by on a ray.
ghost use Rattle.std.specs.Prelude.{ℕ, ◌≤◌, get_or};

// By how much the row at each place falls a step: by 1,000,000 at most.
// An array and no Vec: no heap.
#[derive(Drop)]
pub struct Drops {
    pub each: [u32; 64],
    pub ghost small: { (i : ℕ) → get_or each i 0 ≤ 1_000_000 },
}

impl Drops {
    ghost use Rattle.std.specs.Prelude.{◌≡◌, ◌<◌, set};

    // Sets by how much the row at a place falls.
    pub fn put(&mut self, row: u32, drop: u32)
        requires { (row < 64) × (drop ≤ 1_000_000) }
        ensures { self.new.each ≡ set self.old.each row drop }
    {
        self.each[row as usize] = drop;
    }
}
