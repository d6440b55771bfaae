// Blocks of one length, one behind the other, each written by whoever asks.
#![tactic(auto)]

ghost use Rattle.std.specs.Prelude.{◌≡◌, ◌*◌, List, ℕ, length};
ghost use Rattle.laws.specs.Fill.{joined};
ghost use Rattle.blocks.specs.Blocks.{MayWrite, Writes};

// Fills an output with so many blocks of one length: `put` writes the block at a place into the part that is lent for it.
pub fn put_blocks<F: Fn(u32, &mut [u8])>(out: &mut [u8], size: usize, count: u32, put: F)
    requires { MayWrite (F.pre put) size count × (length out.old ≡ size * count) }
    ensures { (block : ℕ → List ℕ) → Writes (F.post put) size count block → out.new ≡ joined block count }
{
    for place in 0..count {
        let start = size * (place as usize);
        let end = start + size;
        put(place, &mut out[start..end]);
    }
}
