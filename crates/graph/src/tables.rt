// The control-flow graph as two tables.
ghost use Rattle.std.specs.Prelude.{◌≡◌, ◌≤◌, ◌-◌, length, T, ltb};
ghost use Rattle.nll_spec.specs.Syntax.{Job};
ghost use Rattle.nll_spec.specs.Decode.{point_count};
ghost use Rattle.nll_spec.specs.WellFormed.{successors_named};
ghost use Rattle.nll_spec.specs.Graph.{graph_of};
ghost use Rattle.record.specs.Layout.{Holds};
ghost use Rattle.graph.specs.Tables.{up_to, row_start, row_end, successors, Edges};
ghost use Rattle.graph.specs.Search.{WalkedIn};

use super::walked::walked;
use record::Record;
use repr::BasicBlockIndex;

// The graph of a record's job: the points that follow p are succ[first[p]..first[p + 1]], and `walked` has the points of the walked blocks.
#[derive(Clone, Copy)]
pub struct FuncGraph<'a> {
    pub input: Record<'a>,
    pub first: [u16; 1025],
    pub succ: [u16; 1536],
    pub walked: [u32; 32],
}

impl FuncGraph<'_> {
    // Fills the tables for the job of the graph's record, which starts at block 0.
    pub fn fill(&mut self)
        ensures { (self.new.input ≡ self.old.input)
            × ((j : Job) → Holds self.old.input j → T (successors_named j) → point_count j ≤ 1024 → Edges (graph_of j) self.new.first self.new.succ
            × (T (ltb j.start (length j.blocks)) → WalkedIn j self.new.walked)) }
    {
        self.edges();
        walked(&self.input, BasicBlockIndex(0), &mut self.walked);
    }

    // The points that follow p. A row is cut where the table ends; a point past the table has none.
    pub fn successors(&self, p: usize) -> &[u16]
        ensures points { result.now ≡ successors self.now.first self.now.succ p }
        ensures count { length result.now ≡ up_to (row_end self.now.first p) - row_start self.now.first p }
    {
        if 1024 <= p {
            return &self.succ[..0];
        }
        let start = usize::from(self.first[p]);
        let end = usize::from(self.first[p + 1]).min(1536);
        if end < start {
            return &self.succ[..0];
        }
        &self.succ[start..end]
    }
}
