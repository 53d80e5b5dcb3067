#![tactic(auto)]
// The walk of one constraint, "S outlives T at p": the points that are reached from p through T.
ghost use Rattle.std.specs.Prelude.{◌≡◌, true, ◌+◌, ◌<◌, ◌≤◌};
ghost use Rattle.bit_set.specs.Bits.{has, with_bit};
ghost use Rattle.graph.specs.Search.{state_of};
ghost use Rattle.graph.specs.Tables.{Edge};
ghost use Rattle.dfs.specs.Walk.{in_code, Follows, Chained, Along, Stopped, Run, Mask, Reach, visited, left, is_leaf, Roomy, Reaches};

use graph::search::Search;
use graph::tables::FuncGraph;

// A walk along the edges of a graph through the points of a set: the points below `code` of the set that starts at word `from`. Each point of the chain is followed by the
// next one alone.
#[derive(Clone, Copy)]
pub struct Walk<'a> {
    pub graph: &'a FuncGraph<'a>,
    pub chain: &'a [u32; 32],
    pub words: &'a [u32],
    pub from: usize,
    pub code: usize,
}

// The points that a walk reached, and whether one of them has no point after it.
#[derive(Clone, Copy)]
pub struct Reached {
    pub points: [u32; 32],
    pub exit: bool,
}

// Whether the one point that follows q is q + 1.
fn follows(graph: &FuncGraph<'_>, q: usize) -> bool
    requires { q < 1024 }
    ensures { result ≡ true → Follows graph.now.first graph.now.succ q }
{
    matches!(graph.successors(q), [s] if usize::from(*s) == q + 1)
}

// Points below code, each followed by the next one alone. Not all of them need be there: a smaller chain is as right, and slower.
pub fn chains(graph: &FuncGraph<'_>, code: usize) -> [u32; 32]
    ensures { Chained result graph.now.first graph.now.succ }
{
    let mut chain = [0; 32];
    if 1024 < code {
        return chain;
    }
    for q in 0..code {
        if follows(graph, q) {
            bit_set::add(&mut chain, 0, q);
        }
    }
    chain
}

// How many steps a walk may take from bit b on within a word: from a bit of links to the next bit, if that is of inner.
fn run_length(links: u32, inner: u32, b: usize) -> u32
    requires { b < 32 }
    ensures { Run links inner b result }
{
    let steps = links & (inner >> 1);
    u32::trailing_zeros(!(steps >> b))
}

// The word with the bits b to b + n.
fn mask(b: usize, n: usize) -> u32
    requires { b + n < 32 }
    ensures { Mask b n result }
{
    (u32::MAX >> (31 - n)) << b
}

impl Walk<'_> {
    // Whether point q is of the chain.
    fn is_linked(&self, q: usize) -> bool
        ensures { result ≡ has self.now.chain.now q }
    {
        let chain = self.chain;
        bit_set::test(chain, 0, q)
    }

    // Puts the next points of the walk along the chain into the points, as far as they are in one word, and returns the last of them. Returns q where q is not of the
    // chain, the set lacks q + 1, or q + 1 is among the points.
    fn advance(&self, points: &mut [u32; 32], q: usize) -> usize
        requires { (self.now.code ≤ 1024) × (q < 1024) }
        ensures { Along self.now.chain.now (in_code self.now.words.now self.now.from self.now.code) points.old points.new q result
            × (result ≡ q → Stopped self.now.chain.now (in_code self.now.words.now self.now.from self.now.code) points.new q) }
    {
        let next = q + 1;
        if self.code <= next {
            return q;
        }
        if !self.is_linked(q) {
            return q;
        }
        if !bit_set::test(self.words, self.from, next) {
            return q;
        }
        if bit_set::test(points, 0, next) {
            return q;
        }
        let k = next / 32;
        let b = next % 32;
        let limit = (31 - b).min(self.code - 1 - next);
        let n = (run_length(self.chain[k], self.words[self.from + k], b) as usize).min(limit);
        points[k] |= mask(b, n);
        next + n
    }

    // Puts q and the points that the walk takes after it along the chain into the points, and returns the last of them.
    fn follow(&self, points: &mut [u32; 32], q: usize) -> usize
        requires { (self.now.code ≤ 1024) × (q < 1024) }
        ensures { Along self.now.chain.now (in_code self.now.words.now self.now.from self.now.code) (with_bit points.old q) points.new q result
            × Stopped self.now.chain.now (in_code self.now.words.now self.now.from self.now.code) points.new result }
    {
        bit_set::add(points, 0, q);
        let mut at = q;
        loop {
            let next = self.advance(points, at);
            if next == at {
                return at;
            }
            at = next;
        }
    }

    // Marks and pushes s, where it is one of the walk's points and has no mark.
    fn visit(&self, s: u16, search: &mut Search<1024>)
        requires { (self.now.code ≤ 1024) × Roomy search.old.seen search.old.depth }
        ensures { state_of search.new ≡ visited (in_code self.now.words.now self.now.from self.now.code) s (state_of search.old) }
    {
        let at = usize::from(s);
        if self.code <= at {
            return;
        }
        if search.seen[at] != 0 {
            return;
        }
        if !bit_set::test(self.words, self.from, at) {
            return;
        }
        search.push(s);
    }

    // Visits each point that follows q, where q is not of the chain.
    fn leave(&self, q: usize, search: &mut Search<1024>)
        requires { (self.now.code ≤ 1024) × (q < 1024) × Roomy search.old.seen search.old.depth }
        ensures { state_of search.new
            ≡ left self.now.chain.now (in_code self.now.words.now self.now.from self.now.code) self.now.graph.now.first self.now.graph.now.succ q (state_of search.old) }
    {
        if self.is_linked(q) {
            return;
        }
        for &s in self.graph.successors(q) {
            self.visit(s, search);
        }
    }

    // Whether q is not of the chain and has no point after it.
    fn is_leaf(&self, q: usize) -> bool
        requires { q < 1024 }
        ensures { result ≡ is_leaf self.now.chain.now self.now.graph.now.first q }
    {
        !self.is_linked(q) & (self.graph.first[q + 1] <= self.graph.first[q])
    }

    // The points that the walk from p reaches, by a search with marks and a stack.
    fn search(&self, p: usize) -> Reached
        requires { (self.now.code ≤ 1024) × (in_code self.now.words.now self.now.from self.now.code p ≡ true) }
        ensures { Chained self.now.chain.now self.now.graph.now.first self.now.graph.now.succ
            → Reaches (Reach (Edge self.now.graph.now.first self.now.graph.now.succ) (in_code self.now.words.now self.now.from self.now.code) p)
            self.now.graph.now.first result.points result.exit }
    {
        let mut points = [0; 32];
        let mut exit = false;
        let mut search = Search {
            seen: [0; 1024],
            stack: [0; 1024],
            depth: 0,
        };
        search.push(p as u16);
        while let Some(q) = search.pop() {
            let end = self.follow(&mut points, q);
            exit |= self.is_leaf(end);
            self.leave(end, &mut search);
        }
        Reached { points, exit }
    }

    // The same. A walk that ends at a point of the chain needs no search. A walk from a point that is not of a block, or not in the set, reaches nothing; nothing is
    // promised where there are more than 1,024 points.
    pub fn reach(&self, p: usize) -> Reached
        ensures { self.now.code ≤ 1024 → Chained self.now.chain.now self.now.graph.now.first self.now.graph.now.succ
            → Reaches (Reach (Edge self.now.graph.now.first self.now.graph.now.succ) (in_code self.now.words.now self.now.from self.now.code) p)
            self.now.graph.now.first result.points result.exit }
    {
        let mut points = [0; 32];
        if (1024 < self.code) | (self.code <= p) | !bit_set::test(self.words, self.from, p) {
            return Reached {
                points,
                exit: false,
            };
        }
        let end = self.follow(&mut points, p);
        if self.is_linked(end) {
            return Reached {
                points,
                exit: false,
            };
        }
        self.search(p)
    }
}
