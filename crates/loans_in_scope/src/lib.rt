#![tactic(auto)]
// Where the loans of a job are in scope: loan i at point p is number i of the four words from 4 * p on.
// Region r's set starts at word r * width.
ghost use Rattle.std.specs.Prelude.{◌≡◌, ◌+◌, ◌*◌, ◌<◌, ◌≤◌, length};
ghost use Rattle.nll_spec.specs.Syntax.{Job};
ghost use Rattle.nll_spec.specs.Decode.{code_count};
ghost use Rattle.nll_spec.specs.Graph.{graph_of, action_at};
ghost use Rattle.nll_spec.specs.Loans.{overwritten};
ghost use Rattle.record.specs.Layout.{Holds};
ghost use Rattle.loans.specs.Loans.{loan_of};
ghost use Rattle.loans_in_scope.specs.Gains.{Gains, tables, Sized, Empty, Cell, If, WordTo, Within, Onto, Row, Rows, Masked};
ghost use Rattle.loans_in_scope.specs.Scope.{overwritten_by, paths_of, killed, ScopeSays};

use env::prefixes::is_prefix;
use flow::Direction;
use graph::tables::FuncGraph;
use loans::{Loan, LoanTable};
use record::Record;
use repr::{Action, Path, RegionName};

// What the loans in scope are computed from: a graph with its record, the regions' sets in so many words each, the loans, and how many points the blocks have.
#[derive(Clone, Copy)]
struct Setup<'a> {
    graph: &'a FuncGraph<'a>,
    words: &'a [u32],
    width: usize,
    loans: &'a LoanTable,
    code: usize,
    ghost narrow: { width ≤ 32 },
    ghost few: { code ≤ 1024 },
    ghost most: { loans.now.count ≤ 128 },
    ghost whole: { code ≡ graph.now.input.head.code },
}

// The path that an action overwrites.
fn overwrites(a: Action) -> Option<Path>
    ensures { result ≡ overwritten_by a }
{
    match a {
        Action::Init { dest, .. } | Action::Borrow { dest, .. } | Action::Assign { dest, .. } => {
            Some(dest)
        }
        Action::Noop
        | Action::Constraint { .. }
        | Action::Use(_)
        | Action::Drop(_)
        | Action::StorageDead(_) => None,
    }
}

// The path that the action of a point overwrites.
fn overwritten_at(input: &Record<'_>, p: usize) -> Option<Path>
    ensures { (j : Job) → Holds input.now j → p < code_count j.blocks → paths_of input.now.bytes.now result ≡ overwritten (action_at (graph_of j) p) }
{
    let (a, _) = input.action_at(p).ok()?;
    overwrites(a)
}

// Whether what is overwritten is a prefix of the loan's path.
fn is_killed(s: &[u8], d: Option<Path>, loan: Loan) -> bool
    ensures { (j : Job) → result ≡ killed j (paths_of s.now d) (loan_of s.now loan) }
{
    d.is_some_and(|q| is_prefix(s, q, loan.path))
}

// Puts number i into the set of point p, if it comes.
fn put(sets: &mut [u32], p: usize, i: usize, comes: bool)
    requires { (4 * p + 4 ≤ length sets.old) × (i < 128) }
    ensures { Gains (If (Cell p i) comes) sets.old sets.new }
{
    if comes {
        bit_set::add(sets, 4 * p, i);
    }
}

// Puts number i into the sets of the points from `from` on and below `to` that a word has: its first bit is for point `from`.
fn put_word(w: u32, from: usize, to: usize, i: usize, sets: &mut [u32])
    requires { (from ≤ to) × (to ≤ 1024) × (4 * to ≤ length sets.old) × (i < 128) }
    ensures { Gains (WordTo w from to i) sets.old sets.new }
{
    let mut rest = w;
    for p in from..to {
        if rest == 0 {
            return;
        }
        put(sets, p, i, rest % 2 == 1);
        rest /= 2;
    }
}

// Puts each loan whose region has point p into its set.
fn keep_row(region: &[u32], p: usize, pass: &mut [u32])
    requires { (p < 1024) × (4 * p + 4 ≤ length region.now) × (4 * p + 4 ≤ length pass.old) }
    ensures { Gains (Onto region.now (p + 1) p p) pass.old pass.new }
{
    bit_slice::insert_bits_from_slice(pass, 4 * p, region, 4 * p, 4);
}

// Leaves in each of the first n words only the numbers that the other table has there too.
fn mask(by: &[u32], n: usize, sets: &mut [u32])
    requires { (n ≤ length by.now) × (n ≤ length sets.old) }
    ensures { Masked by.now sets.old n sets.new }
{
    for (w, set) in sets[..n].iter_mut().enumerate() {
        *set &= by[w];
    }
}

impl<'a> Setup<'a> {
    ghost use Rattle.loans_in_scope.specs.Filling.{RegionTo, RegionsTo, Begins, Begun, KeptOf, Kept, PointsFilled, says_of};

    // Puts number i into the sets of the points that the region has.
    fn put_region(&self, region: RegionName, i: usize, sets: &mut [u32])
        requires { (4 * self.now.code ≤ length sets.old) × (i < 128) }
        ensures { Gains (RegionTo self.now region.0 i) sets.old sets.new }
    {
        let start = usize::from(region.0) * self.width;
        for k in 0..self.code.div_ceil(32) {
            let w = entries::get_or(self.words, start + k, 0);
            let from = 32 * k;
            put_word(w, from, self.code.min(from + 32), i, sets);
        }
    }

    // Puts loan i into the set of the point where it starts, if that is a point of a block and does not kill it.
    fn begin(&self, loan: Loan, i: usize, start: &mut [u32])
        requires { (4 * self.now.code ≤ length start.old) × (i < 128) }
        ensures { Begins self.now loan i start.old start.new }
    {
        let p = loan.point;
        if self.code <= p {
            return;
        }
        let input = &self.graph.input;
        let d = overwritten_at(input, p);
        let kept = !is_killed(input.bytes, d, loan);
        put(start, p, i, kept);
    }

    // Puts each loan into the set of the point where it starts, and into the sets of the points of its region.
    fn enter(&self, start: &mut [u32], region: &mut [u32])
        requires { (4 * self.now.code ≤ length start.old) × (4 * self.now.code ≤ length region.old) }
        ensures { Begun self.now self.now.loans.now.count start.old start.new
            × Gains (RegionsTo self.now self.now.loans.now.count) region.old region.new }
    {
        for (i, &loan) in self.loans.lent().iter().enumerate() {
            self.begin(loan, i, start);
            self.put_region(loan.region, i, region);
        }
    }

    // Puts each loan into the set of point p, which overwrites d, if its region has the point and it is not killed.
    fn keep_each(&self, region: &[u32], d: Option<Path>, p: usize, pass: &mut [u32])
        requires { (p < 1024) × (4 * p + 4 ≤ length pass.old) }
        ensures { (j : Job) → Gains (KeptOf j self.now region.now (paths_of self.now.graph.now.input.bytes.now d) p self.now.loans.now.count) pass.old pass.new }
    {
        let input = &self.graph.input;
        for (i, &loan) in self.loans.lent().iter().enumerate() {
            let kept = bit_set::test(region, 4 * p, i) && !is_killed(input.bytes, d, loan);
            put(pass, p, i, kept);
        }
    }

    // Puts each loan that may pass point p into its set.
    fn keep_all(&self, region: &[u32], p: usize, pass: &mut [u32])
        requires { (p < 1024) × (4 * p + 4 ≤ length region.now) × (4 * p + 4 ≤ length pass.old) × Within self.now.loans.now.count region.now }
        ensures { Kept self.now region.now p pass.old pass.new }
    {
        if !bit_slice::some_set(region, 4 * p, 4) {
            return;
        }
        let d = overwritten_at(&self.graph.input, p);
        match d {
            None => keep_row(region, p, pass),
            Some(_) => self.keep_each(region, d, p, pass),
        }
    }

    // Puts each loan into the set of the point where it starts, into those of the points that it may pass, and into those of its region's points. All sets
    // are empty before.
    fn fill(&self, start: &mut [u32], pass: &mut [u32], region: &mut [u32])
        requires { Sized self.now.code (tables start.old pass.old region.old) × Empty (tables start.old pass.old region.old) }
        ensures { PointsFilled self.now (tables start.old pass.old region.old) (tables start.new pass.new region.new) }
    {
        self.enter(start, region);
        for p in 0..self.code {
            self.keep_all(region, p, pass);
        }
    }

    // Puts what leaves point p into the set of point q, if that is a point of a block.
    fn onto(&self, from: &[u32], p: usize, q: u16, scope: &mut [u32])
        requires { (p < self.now.code) × (4 * self.now.code ≤ length from.now) × (4 * self.now.code ≤ length scope.old) }
        ensures { Gains (Onto from.now self.now.code p q) scope.old scope.new }
    {
        let at = usize::from(q);
        if at < self.code {
            bit_slice::insert_bits_from_slice(scope, 4 * at, from, 4 * p, 4);
        }
    }

    // The same for each point that follows p.
    fn follow(&self, from: &[u32], p: usize, scope: &mut [u32])
        requires { (p < self.now.code) × (4 * self.now.code ≤ length from.now) × (4 * self.now.code ≤ length scope.old) }
        ensures { Gains (Row from.now self.now.code self.now.graph.now.first self.now.graph.now.succ p) scope.old scope.new }
    {
        for &s in self.graph.successors(p) {
            self.onto(from, p, s, scope);
        }
    }

    // The same for each point.
    fn gather(&self, from: &[u32], scope: &mut [u32])
        requires { (4 * self.now.code ≤ length from.now) × (4 * self.now.code ≤ length scope.old) }
        ensures { Gains (Rows from.now self.now.code self.now.graph.now.first self.now.graph.now.succ self.now.code) scope.old scope.new }
    {
        for p in 0..self.code {
            self.follow(from, p, scope);
        }
    }

    // Puts the loans in scope at each point into its set, by tables of N words.
    #[inline(never)]
    fn with_tables<const N: usize>(&self, scope: &mut [u32])
        requires { (4 * self.now.code ≤ N) × (N ≤ 4096) × (4 * self.now.code ≤ length scope.old) }
        ensures { says_of self.now scope.new }
    {
        let mut leaves = [0; N];
        let mut pass = [0; N];
        let mut region = [0; N];
        self.fill(&mut leaves, &mut pass, &mut region);
        flow::flow(
            &mut leaves,
            &pass,
            self.graph,
            self.code,
            Direction::Forward,
        );
        bit_set::clear(scope, 0, 4 * self.code);
        self.gather(&leaves, scope);
        mask(&region, 4 * self.code, scope);
    }

    // The same by tables of a size for so many points.
    fn compute(&self, scope: &mut [u32])
        requires { 4 * self.now.code ≤ length scope.old }
        ensures { says_of self.now scope.new }
    {
        if self.code <= 32 {
            self.with_tables::<128>(scope);
        } else if self.code <= 128 {
            self.with_tables::<512>(scope);
        } else {
            self.with_tables::<4096>(scope);
        }
    }
}

// The loans in scope at each point, where `scope` has four words for each of at most 1024 points. Where there are no loans, it is left as it is.
pub fn loans_in_scope(
    graph: &FuncGraph<'_>,
    words: &[u32],
    width: usize,
    loans: &LoanTable,
    scope: &mut [u32],
)
    ensures { 4 * graph.now.input.head.code ≤ length scope.old
        → ScopeSays graph.now words.now width loans.now.loans loans.now.count scope.new }
{
    let code = usize::from(graph.input.head.code);
    if code > 1024 || width > 32 || loans.count > 128 {
        return;
    }
    if loans.count == 0 || scope.len() < 4 * code {
        return;
    }
    let setup = Setup {
        graph,
        words,
        width,
        loans,
        code,
    };
    setup.compute(scope);
}
