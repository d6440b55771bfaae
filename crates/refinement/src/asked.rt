// What every turn of an engine is asked of.
ghost use Rattle.std.specs.Prelude.{◌≤◌};
ghost use Rattle.model.specs.Sheet.{Allowed};
ghost use Rattle.columns.specs.Rows.{sheet_in};

use columns::Columns;
use rows::Method;

// Rows of the sizes allowed on 1 to 64 processors, by a method.
#[derive(Clone, Copy)]
pub struct Asked<'a> {
    pub rows: Columns<'a>,
    pub processors: u32,
    pub method: Method,
    pub ghost allowed: { Allowed (sheet_in rows) },
    pub ghost some_processor: { 1 ≤ processors },
    pub ghost few_processors: { processors ≤ 64 },
}
