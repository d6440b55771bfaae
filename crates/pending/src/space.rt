// Space that a turn works in.
use crate::kept::Pending;
use refinement::Other;

// The other rows that a turn keeps, and a word for each row.
// An array and no Vec: no heap.
#[derive(Drop)]
pub struct Space {
    pub pending: Pending,
    pub room: [u32; 64],
}

impl Space {
    ghost use Rattle.std.specs.Prelude.{◌≡◌, replicate};

    // Space with nothing in it.
    pub fn new() -> Self
        ensures others { result.pending.others ≡ replicate 64 (record { cost = 0; period = 0; ahead = 0; share = 0; rise = 0 }) }
        ensures none { (result.pending.left ≡ 0) × (result.pending.settled ≡ 0) }
        ensures room { result.room ≡ replicate 64 0 }
    {
        let none = Other {
            cost: 0,
            period: 0,
            ahead: 0,
            share: 0,
            rise: 0,
        };
        Space {
            pending: Pending {
                others: [none; 64],
                left: 0,
                settled: 0,
            },
            room: [0; 64],
        }
    }
}
