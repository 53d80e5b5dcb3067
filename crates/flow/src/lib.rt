#![tactic(auto)]
// Least sets of numbers along the edges of a graph, in four words a point: number b of point p is bit b of the words from 4 * p on.
ghost use Rattle.std.specs.Prelude.{◌≡◌, ◌+◌, ◌*◌, ◌<◌, ◌≤◌, length, take, drop};
ghost use Rattle.nll_spec.specs.Graph.{Graph};
ghost use Rattle.graph.specs.Tables.{Edges};
ghost use Rattle.flow.specs.Flows.{FlowSays};
ghost use Rattle.flow.specs.Running.{Mixed, Ran, Lanes, Turned, Row, nth, Rows};

use graph::tables::FuncGraph;

// Whether numbers go from a point to those that follow it, or to those that it follows.
#[derive(Clone, Copy)]
pub enum Direction {
    Forward,
    Backward,
}

// The four words of point p.
fn words(table: &[u32], p: usize) -> [u32; 4]
    requires { 4 * p + 4 ≤ length table.now }
    ensures { result ≡ take 4 (drop (4 * p) table.now) }
{
    [
        table[4 * p],
        table[4 * p + 1],
        table[4 * p + 2],
        table[4 * p + 3],
    ]
}

// A word with the bits of another one that may pass.
fn mixed(old: u32, from: u32, pass: u32) -> u32
    ensures { Mixed old from pass result }
{
    old | (from & pass)
}

// Puts what the set of point p has and point q lets pass into the set of point q, and says whether that changed it.
fn edge(sets: &mut [u32], pass: &[u32], p: usize, q: usize) -> bool
    requires { (4 * p + 4 ≤ length sets.old) × (4 * q + 4 ≤ length sets.old) × (4 * q + 4 ≤ length pass.now) }
    ensures { Ran (Lanes 4 p q) pass.now sets.old sets.new result }
{
    // Read before any is written, so that the four words can go in one step.
    let from = words(sets, p);
    let passes = words(pass, q);
    let mut changed = false;
    for k in 0..4 {
        let old = sets[4 * q + k];
        let new = mixed(old, from[k], passes[k]);
        sets[4 * q + k] = new;
        changed = (old != new) | changed;
    }
    changed
}

// What numbers go along: the edges of a graph between points below `code`, in one direction, to points that let them pass.
#[derive(Clone, Copy)]
struct Ways<'a> {
    pass: &'a [u32],
    graph: &'a FuncGraph<'a>,
    code: usize,
    direction: Direction,
    ghost few: { code ≤ 1024 },
    ghost passes: { 4 * code ≤ length pass.now },
}

impl Ways<'_> {
    // Puts what the set of p has and s lets pass into the set of s, a point that follows p; where numbers go backward, what the set of s has and p lets pass into the set of p. Says whether
    // that changed it. A number s that is no point of a block is passed by.
    fn turned(&self, sets: &mut [u32], p: usize, s: u16) -> bool
        requires { (p < self.now.code) × (4 * self.now.code ≤ length sets.old) }
        ensures { Ran (Turned self.now.direction self.now.code p s) self.now.pass.now sets.old sets.new result }
    {
        let q = usize::from(s);
        if self.code <= q {
            return false;
        }
        match self.direction {
            Direction::Forward => edge(sets, self.pass, p, q),
            Direction::Backward => edge(sets, self.pass, q, p),
        }
    }

    // The same for p and each point that follows it.
    fn row(&self, sets: &mut [u32], p: usize) -> bool
        requires { (p < self.now.code) × (4 * self.now.code ≤ length sets.old) }
        ensures { Ran (Row self.now.direction self.now.code self.now.graph.now.first self.now.graph.now.succ p) self.now.pass.now sets.old sets.new result }
    {
        let mut changed = false;
        for &s in self.graph.successors(p) {
            changed = self.turned(sets, p, s) | changed;
        }
        changed
    }

    // Point number i of a round, which goes down where numbers go backward.
    fn point(&self, i: usize) -> usize
        requires { i < self.now.code }
        ensures { (result ≡ nth self.now.direction self.now.code i) × (result < self.now.code) }
    {
        match self.direction {
            Direction::Forward => i,
            Direction::Backward => self.code - 1 - i,
        }
    }

    // Every edge once.
    fn round(&self, sets: &mut [u32]) -> bool
        requires { 4 * self.now.code ≤ length sets.old }
        ensures { Ran (Rows self.now.direction self.now.code self.now.graph.now.first self.now.graph.now.succ self.now.code) self.now.pass.now sets.old sets.new result }
    {
        let mut changed = false;
        for i in 0..self.code {
            let p = self.point(i);
            changed = self.row(sets, p) | changed;
        }
        changed
    }

    // Every edge until no set changes.
    fn run(&self, sets: &mut [u32])
        requires { 4 * self.now.code ≤ length sets.old }
        ensures { (length sets.new ≡ length sets.old)
            × ((g : Graph) → Edges g self.now.graph.now.first self.now.graph.now.succ → self.now.code ≡ g.code
            → FlowSays g self.now.direction self.now.pass.now sets.old sets.new) }
    {
        while self.round(sets) {}
    }
}

// Puts into each point's set the numbers that come to it along edges, through points that let them pass, if both tables have four words a point.
pub fn flow(
    sets: &mut [u32],
    pass: &[u32],
    graph: &FuncGraph<'_>,
    code: usize,
    direction: Direction,
)
    ensures { (length sets.new ≡ length sets.old) × (4 * code ≤ length sets.old → 4 * code ≤ length pass.now
        → (g : Graph) → Edges g graph.now.first graph.now.succ → code ≡ g.code
        → FlowSays g direction pass.now sets.old sets.new) }
{
    if 1024 < code {
        return;
    }
    if sets.len() < 4 * code {
        return;
    }
    if pass.len() < 4 * code {
        return;
    }
    let ways = Ways {
        pass,
        graph,
        code,
        direction,
    };
    ways.run(sets);
}
