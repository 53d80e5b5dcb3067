#![tactic(auto)]
// The loans of a job, the borrows of its walked blocks in record order, in a lent table.
ghost use Rattle.std.specs.Prelude.{◌≡◌, ◌<◌, ◌≤◌, min, length, take, T};
ghost use Rattle.nll_spec.specs.Syntax.{Job};
ghost use Rattle.nll_spec.specs.WellFormed.{named, paths_fit};
ghost use Rattle.nll_spec.specs.Graph.{graph_of};
ghost use Rattle.nll_spec.specs.Loans.{loans_of};
ghost use Rattle.record.specs.Layout.{Holds};
ghost use Rattle.graph.specs.Search.{WalkedIn};
ghost use Rattle.loans.specs.Loans.{LoansAt, Lends};

use env::Shortest;
use env::prefixes::shortest_of;
use graph::tables::FuncGraph;
use record::ActionKind;
use repr::{Action, BorrowKind, Cursor, Path, RegionName, Variable};

// What a borrow lends, with the shortest prefixes of its path.
#[derive(Clone, Copy)]
pub struct Loan {
    pub point: usize,
    pub region: RegionName,
    pub kind: BorrowKind,
    pub path: Path,
    pub shortest: Shortest,
}

// So many loans, the first `count` of the array.
#[derive(Clone, Copy)]
pub struct LoanTable {
    pub loans: [Loan; 128],
    pub count: usize,
}

impl LoanTable {
    // No loans.
    pub fn none() -> LoanTable
        ensures { result.count ≡ 0 }
    {
        let path = Path {
            base: Variable(0),
            steps: 0,
            from: Cursor { at: 0 },
        };
        let shortest = Shortest {
            supporting: 0,
            frozen: 0,
        };
        let loan = Loan {
            point: 0,
            region: RegionName(0),
            kind: BorrowKind::Mut,
            path,
            shortest,
        };
        LoanTable {
            loans: [loan; 128],
            count: 0,
        }
    }

    // The loans that there are.
    pub fn lent(&self) -> &[Loan]
        ensures { (result.now ≡ take self.now.count self.now.loans) × (length result.now ≡ min self.now.count 128) }
    {
        &self.loans[..self.count.min(128)]
    }
}

// Puts the loan of point p into the table, if it is a borrow that is walked, after those that are there.
fn lend(graph: &FuncGraph<'_>, p: usize, lent: &mut LoanTable)
    requires { (p < 1024) × (lent.old.count ≤ 128) }
    ensures { Lends graph.now p lent.old lent.new }
{
    if !bit_set::test(&graph.walked, 0, p) {
        return;
    }
    if graph.input.kind_at(p) != ActionKind::Borrow {
        return;
    }
    let Ok((a, _)) = graph.input.action_at(p) else {
        return;
    };
    let Action::Borrow {
        dest: _,
        region,
        kind,
        source,
    } = a
    else {
        return;
    };
    let n = lent.count;
    if n == 128 {
        return;
    }
    lent.loans[n] = Loan {
        point: p,
        region,
        kind,
        path: source,
        shortest: shortest_of(&graph.input, source),
    };
    lent.count = n + 1;
}

// Puts the loans of a job into the table.
pub fn loans(graph: &FuncGraph<'_>, lent: &mut LoanTable)
    ensures { (j : Job) → Holds graph.now.input j → T (named j) → T (paths_fit j) → WalkedIn j graph.now.walked → length (loans_of (graph_of j)) ≤ 128 → LoansAt graph.now.input.bytes.now j lent.new.loans lent.new.count }
{
    lent.count = 0;
    let code = usize::from(graph.input.head.code).min(1024);
    for p in 0..code {
        lend(graph, p, lent);
    }
}
