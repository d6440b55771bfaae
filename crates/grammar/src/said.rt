// The answers of reading and of writing as C is given them: the refusal by its number and place.
ghost use Rattle.std.specs.Prelude.{◌≡◌};
ghost use Rattle.grammar.specs.Told.{read_said, written_said};

use crate::{Header, Read, Written};
use refusals::Refusal;

impl From<Result<Header, Refusal>> for Read {
    ghost from_gives = { λ reading read. read ≡ read_said reading };

    // Refused, processors and rows are 0.
    fn from(reading: Result<Header, Refusal>) -> Self {
        match reading {
            Ok(header) => Read {
                refusal: 0,
                place: 0,
                processors: header.processors,
                rows: header.rows,
            },
            Err(why) => Read {
                refusal: why.number(),
                place: why.place(),
                processors: 0,
                rows: 0,
            },
        }
    }
}

impl From<Result<u32, Refusal>> for Written {
    ghost from_gives = { λ writing written. written ≡ written_said writing };

    // Refused, no byte is written.
    fn from(writing: Result<u32, Refusal>) -> Self {
        match writing {
            Ok(length) => Written {
                refusal: 0,
                place: 0,
                length,
            },
            Err(why) => Written {
                refusal: why.number(),
                place: why.place(),
                length: 0,
            },
        }
    }
}
