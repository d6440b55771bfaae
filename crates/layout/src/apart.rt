// Rows that are lent in triples, taken apart into columns of their own.
use columns::Columns;
use refusals::Refusal;
use rows::row_count;
use table::check_shape;

// Space for the columns that triples are taken apart into, filled where it stands.
// Arrays, and no Vec: no heap. Lent by whoever asks, and not returned: an array that a call returns is copied, and stack is scarce.
#[derive(Clone, Copy)]
pub struct Apart {
    costs: [u32; 64],
    deadlines: [u32; 64],
    periods: [u32; 64],
}

impl Apart {
    ghost use Rattle.std.specs.Prelude.{◌≡◌, ◌≤◌, IfOk, replicate};
    ghost use Rattle.refusals.specs.Refusals.{refused};
    ghost use Rattle.rows.specs.Words.{sheet_of};
    ghost use Rattle.rows.specs.Layouts.{in_triples, shape_refusal, SameRows};
    ghost use Rattle.rows.specs.Inner.{Laid, Apart as TakenApart};
    ghost use Rattle.refusals.specs.Told.{said};
    ghost use Rattle.columns.specs.Rows.{lent};

    // Space with nothing in it.
    pub fn new() -> Self
        ensures costs { result.costs ≡ replicate 64 0 }
        ensures deadlines { result.deadlines ≡ replicate 64 0 }
        ensures periods { result.periods ≡ replicate 64 0 }
    {
        Apart {
            costs: [0; 64],
            deadlines: [0; 64],
            periods: [0; 64],
        }
    }

    // Takes triples apart: 2 where the words are no whole rows, 3 where they are more than 64 rows.
    pub fn columns(&mut self, words: &[u32]) -> Result<Columns<'_>, Refusal>
        ensures shape { said result ≡ refused (shape_refusal (in_triples words.now)) 0 }
        ensures same { IfOk result (λ rows. SameRows (in_triples words.now) (lent rows)) }
    {
        check_shape(words)?;
        let count = row_count(words);
        self.fill_columns(words);
        Ok(Columns {
            costs: &self.costs[..count],
            deadlines: &self.deadlines[..count],
            periods: &self.periods[..count],
        })
    }
    // Takes each row's three words to its place in the columns.
    fn fill_columns(&mut self, words: &[u32])
        requires { ((sheet_of words.now).rows ≤ 64) × Laid words.now }
        ensures { TakenApart (sheet_of words.now) self.new.costs self.new.deadlines self.new.periods }
    {
        for row in 0..row_count(words) {
            let at = 3 * row;
            self.costs[row] = words[at];
            self.deadlines[row] = words[at + 1];
            self.periods[row] = words[at + 2];
        }
    }
}
