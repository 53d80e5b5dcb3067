#![tactic(auto)]
// What `nll-list` reads and prints, in pieces: the record in hexadecimal, and the lines of its answer.
mod places;
mod reader;
mod writer;

pub use places::{Answer, count};
pub use reader::{Hex, ROOM};
pub use writer::{Text, refused};

// How many points, regions and declared regions an answer has.
#[derive(Clone, Copy)]
pub struct Counts {
    pub points: u16,
    pub regions: u8,
    pub declared: u8,
}

// Which part of the answer's lines comes next.
#[derive(Clone, Copy)]
pub enum Place {
    Points,
    Region(u8),
    Within(u8, u16),
    Access(u16),
    Grown(u8),
}
