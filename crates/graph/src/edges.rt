// The rows of both tables, block by block.
ghost use Rattle.std.specs.Prelude.{◌≡◌, ◌+◌, ◌<◌, ◌≤◌, length, T};
ghost use Rattle.nll_spec.specs.Syntax.{Job};
ghost use Rattle.nll_spec.specs.Decode.{point_count};
ghost use Rattle.nll_spec.specs.WellFormed.{successors_named};
ghost use Rattle.nll_spec.specs.Graph.{graph_of};
ghost use Rattle.record.specs.Layout.{Holds};
ghost use Rattle.graph.specs.Tables.{Edges};
ghost use Rattle.graph.specs.Filling.{Chained, Ended, Within, BlockRows};

use super::Place;
use super::shapes::shape;
use super::tables::FuncGraph;
use repr::BasicBlockIndex;

impl FuncGraph<'_> {
    // The rows of a block's actions, the points from p on: the next point follows each.
    fn chain(&mut self, p: usize, count: usize, k: usize)
        requires { (p + count < 1025) × (k + count ≤ 1536) }
        ensures { Chained p count k self.old.first self.old.succ self.new.first self.new.succ
            × (self.new.input ≡ self.old.input) }
    {
        for i in 0..count {
            self.succ[k + i] = (p + i + 1) as u16;
            self.first[p + i + 1] = (k + i + 1) as u16;
        }
    }

    // The row of a block's end, point p: the first points of its successors.
    fn end(&mut self, successors: &[u8], p: usize, k: usize)
        requires { (p < 1024) × (k + length successors.now ≤ 1536) }
        ensures { Ended self.old.input.layout.now successors.now p k self.old.first self.old.succ self.new.first self.new.succ
            × (self.new.input ≡ self.old.input) }
    {
        for (i, &b) in successors.iter().enumerate() {
            self.succ[k + i] = self.input.first_point(BasicBlockIndex(b));
        }
        self.first[p + 1] = (k + successors.len()) as u16;
    }

    // The rows of block b. Where the tables have no room for them, nothing is written.
    fn block(&mut self, b: u8, at: Place) -> Place
        requires { Within at }
        ensures { BlockRows self.old.input.bytes.now self.old.input.layout.now b at result self.old.first self.old.succ self.new.first self.new.succ
            × (self.new.input ≡ self.old.input) }
    {
        let d = shape(&self.input, BasicBlockIndex(b));
        let end_point = at.point + d.actions;
        let end_entry = at.entry + d.actions;
        if 1024 <= end_point {
            return at;
        }
        if 1536 < end_entry + d.successors.len() {
            return at;
        }
        self.chain(at.point, d.actions, at.entry);
        self.end(d.successors, end_point, end_entry);
        Place {
            point: end_point + 1,
            entry: end_entry + d.successors.len(),
        }
    }

    // Fills both tables for the job of the graph's record.
    pub fn edges(&mut self)
        ensures { (self.new.input ≡ self.old.input)
            × ((j : Job) → Holds self.old.input j → T (successors_named j) → point_count j ≤ 1024 → Edges (graph_of j) self.new.first self.new.succ) }
    {
        self.first[0] = 0;
        let mut at = Place { point: 0, entry: 0 };
        for b in 0..self.input.head.blocks {
            at = self.block(b, at);
        }
    }
}
