// Another row as a turn keeps it: its cost, its period, how far its bound is above the cost, its share, and what a period brings.
#[derive(Clone, Copy)]
pub struct Other {
    pub cost: u32,
    pub period: u32,
    pub ahead: u32,
    pub share: u32,
    pub rise: u32,
}
