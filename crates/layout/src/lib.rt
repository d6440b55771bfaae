// The layouts that rows are lent in, each taken for columns of one length.
#![tactic(auto)]

mod apart;
mod lent;

pub use apart::Apart;
pub use lent::lent_columns;
