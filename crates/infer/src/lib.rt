#![tactic(auto)]
// "S outlives T at p": the points that a walk from p through T reaches are put into S, and, where it comes to a point without successors, so are the
// declared ends that the end rule passes on.
// Region r's set starts at word r * width.
ghost use Rattle.std.specs.Prelude.{◌≡◌, true, [], ◌∷◌, ◌+◌, ◌/◌, ◌<◌, ◌≤◌, length};
ghost use Rattle.nll_spec.specs.Regions.{passes_end};
ghost use Rattle.nll_spec.specs.Output.{word_bits};
ghost use Rattle.bit_set.specs.Bits.{both_fit};
ghost use Rattle.dfs.specs.Walk.{in_code};
ghost use Rattle.infer.specs.Search.{rule_of, Linked, with_ends, Gets, In, Below, Spread, is_subset, has_ends, adds_nothing, in_bounds, is_covered, Covered};
ghost use Rattle.constraint_list.specs.Listed.{outlives_of, constraints_in, Draws};
ghost use Rattle.infer.specs.Ran.{Setting, Given, Names, Ran, Runs, constraint, any_marked};

use bit_set::run_fits;
use constraint_list::Constraint;
use dfs::Walk;
use graph::tables::FuncGraph;
use repr::RegionName;

// The declared ends that a walk which comes to a point without successors puts into its outer region: every one, or those that its inner region holds.
#[derive(Clone, Copy)]
pub enum EndRule {
    EveryEnd,
    HeldEnds,
}

// How many words a region's set takes, how many points the blocks have, and how many points there are with the declared ends.
#[derive(Clone, Copy)]
pub struct Shape {
    pub width: usize,
    pub code: usize,
    pub points: usize,
}

// What constraints are run in. Each point of the chain is followed by the next one alone.
#[derive(Clone, Copy)]
pub struct Setup<'a> {
    pub graph: &'a FuncGraph<'a>,
    pub chain: &'a [u32; 32],
    pub shape: Shape,
    pub rule: EndRule,
}

// Whether the end rule passes on an end that the inner region holds or not.
fn passes_end(rule: EndRule, held: bool) -> bool
    ensures { result ≡ passes_end (rule_of rule) held }
{
    match rule {
        EndRule::EveryEnd => true,
        EndRule::HeldEnds => held,
    }
}

// Puts the points, all below n, into the set from word to, and says whether one was not there.
fn put(words: &mut [u32], to: usize, n: usize, points: &[u32]) -> bool
    requires { n ≤ 1024 }
    ensures { Below points.now n → Spread (In points.now) n words.old words.new to result }
{
    bit_set::union_from(words, to, points, 0, n.div_ceil(32))
}

// Whether both runs of n words are among the words.
fn both_fit(words: &[u32], from: usize, to: usize, n: usize) -> bool
    ensures { result ≡ both_fit words.now to words.now from n }
{
    let count = words.len();
    run_fits(count, to, n) & run_fits(count, from, n)
}

// Whether the run of n words from word from has no number that the run from word to lacks. False where a run is not among the words.
fn is_subset(words: &[u32], from: usize, to: usize, n: usize) -> bool
    ensures { result ≡ is_subset words.now from to n }
{
    if !both_fit(words, from, to, n) {
        return false;
    }
    let mut lacks = false;
    for (inner, outer) in words[from..from + n].iter().zip(&words[to..to + n]) {
        lacks |= *outer != (*outer | *inner);
    }
    !lacks
}

impl Setup<'_> {
    // Puts the ends that the end rule passes on into the points, where the inner set starts at word from.
    fn put_ends(&self, words: &[u32], from: usize, points: &mut [u32; 32])
        requires { self.now.shape.code ≤ self.now.shape.points }
        ensures { points.new ≡ with_ends self.now words.now from points.old }
    {
        for i in self.shape.code..self.shape.points {
            let held = bit_set::test(words, from, i);
            if passes_end(self.rule, held) {
                bit_set::add(points, 0, i);
            }
        }
    }

    // Whether word k has only points of the chain, all of them in the set from word to, where the inner set starts at word from.
    fn is_covered(&self, words: &[u32], from: usize, to: usize, k: usize) -> bool
        requires { (k < 32) × (from + k < length words.now) × (to + k < length words.now) }
        ensures { result ≡ is_covered self.now.chain.now words.now from to k }
    {
        let inner = words[from + k];
        let outer = words[to + k];
        let links = self.chain[k];
        (outer == (outer | inner)) & (links == (links | inner))
    }

    // Whether the words show that a walk from p stays within the set from word to: from p's word on, the inner set has only points of the chain that the
    // outer one has too, up to a word whose last point the inner set lacks.
    fn stays_within(&self, words: &[u32], from: usize, to: usize, p: usize) -> bool
        requires { self.now.shape.width ≤ 32 }
        ensures { result ≡ true → Covered self.now.chain.now words.now from to (p / word_bits) }
    {
        let width = self.shape.width;
        if !both_fit(words, from, to, width) {
            return false;
        }
        for k in p / 32..width {
            if !self.is_covered(words, from, to, k) {
                return false;
            }
            if words[from + k] < 1 << 31 {
                return true;
            }
        }
        false
    }

    // Whether the set from word to has each end that the end rule passes on whether or not the inner region holds it.
    fn has_ends(&self, words: &[u32], to: usize) -> bool
        ensures { result ≡ has_ends self.now words.now to }
    {
        if !passes_end(self.rule, false) {
            return true;
        }
        (self.shape.code..self.shape.points).all(|end| bit_set::test(words, to, end))
    }

    // Whether the words show that no constraint with these sets puts a point into the set from word to, where the inner set starts at word from.
    fn adds_nothing(&self, words: &[u32], to: usize, from: usize) -> bool
        ensures { result ≡ adds_nothing self.now words.now to from }
    {
        if !is_subset(words, from, to, self.shape.width) {
            return false;
        }
        self.has_ends(words, to)
    }

    // Whether the numbers are in bounds, so that no sum, product or index below goes wrong.
    fn in_bounds(&self, s: usize, t: usize, p: usize) -> bool
        ensures { result ≡ in_bounds self.now.shape s t p }
    {
        (self.shape.width <= 32)
            & (self.shape.code <= self.shape.points)
            & (self.shape.points <= 1024)
            & (s < 128)
            & (t < 128)
            & (p < self.shape.code)
    }

    // Puts into the set from word to what a constraint at p puts there, where the inner set starts at word from, and says whether one point was not there.
    fn spread(&self, words: &mut [u32], to: usize, from: usize, p: usize) -> bool
        requires { (self.now.shape.code ≤ self.now.shape.points) × (self.now.shape.points ≤ 1024) × (in_code words.old from self.now.shape.code p ≡ true) }
        ensures { Linked self.now
            → Spread (Gets self.now words.old from p) self.now.shape.points words.old words.new to result }
    {
        let walk = Walk {
            graph: self.graph,
            chain: self.chain,
            words,
            from,
            code: self.shape.code,
        };
        let reached = walk.reach(p);
        let mut points = reached.points;
        if reached.exit {
            self.put_ends(words, from, &mut points);
        }
        put(words, to, self.shape.points, &points)
    }

    // Runs the constraint "sup outlives sub at point". It is passed by where neither the last round nor this one marks sub, so that nothing is new in it,
    // where sub does not hold the point, and where the words show that it adds nothing. If the set of sup grows, sup is marked.
    pub fn outlives(
        &self,
        words: &mut [u32],
        last: &[u32; 4],
        grew: &mut [u32; 4],
        sup: RegionName,
        sub: RegionName,
        point: usize,
    )
        ensures { (s : Setting) → Given s self.now words.old grew.old → Names s (constraint sup.0 sub.0 point)
            → Ran s last.now (constraint sup.0 sub.0 point ∷ []) words.old grew.old words.new grew.new }
    {
        let s = usize::from(sup.0);
        let t = usize::from(sub.0);
        if !self.in_bounds(s, t, point) {
            return;
        }
        if !bit_set::test(last, 0, t) & !bit_set::test(grew, 0, t) {
            return;
        }
        let from = t * self.shape.width;
        if !bit_set::test(words, from, point) {
            return;
        }
        let to = s * self.shape.width;
        if self.stays_within(words, from, to, point) {
            return;
        }
        if self.adds_nothing(words, to, from) {
            return;
        }
        if self.spread(words, to, from, point) {
            bit_set::add(grew, 0, s);
        }
    }

    // Runs a constraint, and puts it into the list `recent`, if there is room, where by it the outer region gets its mark.
    fn run_one(
        &self,
        words: &mut [u32],
        last: &[u32; 4],
        grew: &mut [u32; 4],
        recent: &mut [u32],
        c: Constraint,
    )
        ensures { Runs self.now last.now (outlives_of c ∷ []) words.old grew.old words.new grew.new
            × Draws (outlives_of c ∷ []) recent.old recent.new }
    {
        let region = usize::from(c.sup);
        let before = bit_set::test(grew, 0, region);
        let sup = RegionName(c.sup);
        let sub = RegionName(c.sub);
        let point = usize::from(c.point);
        self.outlives(words, last, grew, sup, sub, point);
        if bit_set::test(grew, 0, region) == before {
            return;
        }
        constraint_list::add(recent, c);
    }

    // Runs each constraint of the list once. Those by which regions are marked come into the list `recent`, as far as it has room.
    pub fn run(
        &self,
        words: &mut [u32],
        last: &[u32; 4],
        grew: &mut [u32; 4],
        recent: &mut [u32],
        list: &[u32],
    )
        ensures { Runs self.now last.now (constraints_in list.now) words.old grew.old words.new grew.new
            × Draws (constraints_in list.now) recent.old recent.new }
    {
        for i in 0..constraint_list::count(list) {
            let c = constraint_list::get(list, i);
            self.run_one(words, last, grew, recent, c);
        }
    }
}

// Whether a region is marked, so that constraints are to be run again.
pub fn any_marked(grew: &[u32; 4]) -> bool
    ensures { result ≡ any_marked grew.now 128 }
{
    bit_slice::some_set(grew, 0, 4)
}
