// A climb to the value that is its own image.
#![tactic(auto)]

ghost use Rattle.std.specs.Prelude.{◌≡◌, ℕ, ◌+◌, ◌-◌, ◌≤◌};
ghost use Rattle.laws.specs.Climb.{fixed};
ghost use Rattle.laws.specs.Search.{least};
ghost use Rattle.rows.specs.Words.{found_of};
ghost use Rattle.climb.specs.Climbing.{Images};

// The least value from the first to the top that is its own image, where images keep order and the first is not above its own: a value below
// its image is replaced by it.
pub fn climb<F: Fn(u32) -> u32>(image: F, first: u32, top: u32) -> Option<u32>
    requires { (x : ℕ) → first ≤ x → x ≤ top → F.pre image x }
    ensures { (f : ℕ → ℕ) → Images (F.post image) first top f → result ≡ found_of (least (fixed f) first (top + 1 - first)) }
{
    let mut x = first;
    while x <= top {
        let value = image(x);
        if value <= x {
            return Some(x);
        }
        x = value;
    }
    None
}
