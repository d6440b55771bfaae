// What an entry answered, as it is printed: in words and decimal numbers, or why it refused.
use quick_look::Reply;
use refusals::Refusal;
use std::fmt;
use verdict::Outcome;

// One row's answer.
#[derive(Clone, Copy)]
pub(crate) struct Row(pub(crate) Result<Option<u32>, Refusal>);

impl fmt::Display for Row {
    fn fmt<W: fmt::Write>(&self, f: &mut fmt::Formatter<W>) -> fmt::Result {
        match self.0 {
            Ok(Some(bound)) => write!(f, "{bound}"),
            Ok(None) => write!(f, "none"),
            Err(why) => write!(f, "{why}"),
        }
    }
}

// The marks of a refinement.
#[derive(Clone, Copy)]
pub(crate) struct Marks(pub(crate) Result<u64, Refusal>);

impl fmt::Display for Marks {
    fn fmt<W: fmt::Write>(&self, f: &mut fmt::Formatter<W>) -> fmt::Result {
        match self.0 {
            Ok(marks) => write!(f, "marks {marks}"),
            Err(why) => write!(f, "{why}"),
        }
    }
}

// What the exact test says.
#[derive(Clone, Copy)]
pub(crate) struct Exact(pub(crate) Result<Outcome, Refusal>);

impl fmt::Display for Exact {
    fn fmt<W: fmt::Write>(&self, f: &mut fmt::Formatter<W>) -> fmt::Result {
        match self.0 {
            Ok(Outcome::Miss(at)) => write!(f, "miss {at}"),
            Ok(Outcome::Fits(at)) => write!(f, "fits {at}"),
            Ok(Outcome::Undecided) => write!(f, "undecided"),
            Err(why) => write!(f, "{why}"),
        }
    }
}

// What the density test says.
#[derive(Clone, Copy)]
pub(crate) struct Dense(pub(crate) Result<Reply, Refusal>);

impl fmt::Display for Dense {
    fn fmt<W: fmt::Write>(&self, f: &mut fmt::Formatter<W>) -> fmt::Result {
        match self.0 {
            Ok(Reply::Yes) => write!(f, "yes"),
            Ok(Reply::No) => write!(f, "no"),
            Ok(Reply::Unsure) => write!(f, "unsure"),
            Err(why) => write!(f, "{why}"),
        }
    }
}

// How many bytes were written.
#[derive(Clone, Copy)]
pub(crate) struct Written(pub(crate) Result<u32, Refusal>);

impl fmt::Display for Written {
    fn fmt<W: fmt::Write>(&self, f: &mut fmt::Formatter<W>) -> fmt::Result {
        match self.0 {
            Ok(length) => write!(f, "{length} bytes"),
            Err(why) => write!(f, "{why}"),
        }
    }
}
