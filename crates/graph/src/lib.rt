#![tactic(auto)]
// The control-flow graph of an accepted job: what follows each point, and the walked blocks.
pub mod edges;
pub mod search;
mod shapes;
pub mod tables;
pub mod walked;

// So many actions, and the successors, as they stand in the record.
#[derive(Clone, Copy)]
pub struct Shape<'a> {
    pub actions: usize,
    pub successors: &'a [u8],
}

// How far the tables of edges are filled: the points below `point` have rows, in the first `entry` entries.
#[derive(Clone, Copy)]
pub struct Place {
    pub point: usize,
    pub entry: usize,
}
