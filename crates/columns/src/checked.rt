// Rows whose sizes are checked.
ghost use Rattle.model.specs.Sheet.{Allowed};
ghost use Rattle.columns.specs.Rows.{sheet_in};

use crate::{Columns, check_sizes};
use refusals::Refusal;

// Rows each of which has the sizes allowed.
#[derive(Clone, Copy)]
pub struct Checked<'a> {
    pub rows: &'a Columns<'a>,
    pub ghost sizes: { Allowed (sheet_in rows.now) },
}

impl<'a> TryFrom<&'a Columns<'a>> for Checked<'a> {
    type Error = Refusal;

    ghost use Rattle.columns.specs.Checked.{Sized};

    ghost try_from_gives = { λ rows. Sized rows.now };

    // The same rows, or 8 where a row is outside the sizes allowed.
    fn try_from(rows: &'a Columns<'a>) -> Result<Self, Refusal> {
        check_sizes(rows)?;
        Ok(Checked { rows })
    }
}
