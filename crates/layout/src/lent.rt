// Rows that are lent in columns.
ghost use Rattle.std.specs.Prelude.{◌≡◌, IfOk};
ghost use Rattle.refusals.specs.Refusals.{refused};
ghost use Rattle.rows.specs.Layouts.{in_columns, shape_refusal};
ghost use Rattle.refusals.specs.Told.{said};

use columns::Columns;
use refusals::Refusal;

// The columns as they are lent: 2 where they are empty or their lengths differ, 3 where they are more than 64 rows.
// Three slices, which need not be as long as one another: that is how C lends them.
#[tactic(auto, using(std::proofs::lemmas::Bool::Decides::nat_tests), unfolding(rows::specs::Layouts::shape_refusal, rows::specs::Layouts::uneven, rows::specs::Checks::count_refusal, model::specs::Sheet::columns))]
pub fn lent_columns<'a>(
    costs: &'a [u32],
    deadlines: &'a [u32],
    periods: &'a [u32],
) -> Result<Columns<'a>, Refusal>
    ensures shape { said result ≡ refused (shape_refusal (in_columns costs.now deadlines.now periods.now)) 0 }
    ensures lent { IfOk result (λ rows. (rows.costs.now ≡ costs.now) × (rows.deadlines.now ≡ deadlines.now) × (rows.periods.now ≡ periods.now)) }
{
    if deadlines.len() != costs.len() {
        return Err(Refusal::Layout);
    }
    if periods.len() != costs.len() {
        return Err(Refusal::Layout);
    }
    if costs.is_empty() {
        return Err(Refusal::Layout);
    }
    if 64 < costs.len() {
        return Err(Refusal::Rows);
    }
    Ok(Columns {
        costs,
        deadlines,
        periods,
    })
}
