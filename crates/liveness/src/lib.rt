#![tactic(auto)]
// The variables that are live on entry to each point of the walked blocks: those used later, and those dropped later.
mod actions;
mod rows;

ghost use Rattle.std.specs.Prelude.{◌≡◌, ◌*◌, ◌%◌, ◌≤◌, length};
ghost use Rattle.nll_spec.specs.Syntax.{Job};
ghost use Rattle.nll_spec.specs.Graph.{graph_of};
ghost use Rattle.nll_spec.specs.Decode.{code_count};
ghost use Rattle.nll_spec.specs.Output.{word_bits};
ghost use Rattle.record.specs.Layout.{Holds};
ghost use Rattle.graph.specs.Tables.{Edges};
ghost use Rattle.graph.specs.Search.{WalkedIn};
ghost use Rattle.liveness.specs.Needs.{start_of, Blank};
ghost use Rattle.liveness.specs.Rows.{LiveRows};

use actions::fill;
use flow::Direction;
use graph::tables::FuncGraph;
use rows::rows;

// A half of a point's set: the variables that are used later, or those that are dropped later.
#[derive(Clone, Copy)]
enum Half {
    Used,
    Dropped,
}

impl Half {
    // The number that variable 0 has in a point's set.
    fn start(self) -> usize
        ensures { (result ≡ start_of self) × (result ≤ 64) × (result % 32 ≡ 0) }
    {
        match self {
            Half::Used => 0,
            Half::Dropped => 64,
        }
    }
}

// Fills the rows of the variables, by two tables of the points' sets: nothing starts yet, and everything passes.
fn by_tables(
    graph: &FuncGraph<'_>,
    width: usize,
    sets: &mut [u32],
    pass: &mut [u32],
    used: &mut [u32],
    dropped: &mut [u32],
)
    requires { (graph.now.input.head.code ≤ 32 * width) × (width ≤ 32) × (graph.now.input.head.variables ≤ 64) × Blank graph.now.input.head.code sets.old pass.old
        × (4 * graph.now.input.head.code ≤ length sets.old) × (4 * graph.now.input.head.code ≤ length pass.old) × (64 * width ≤ length used.old) × (64 * width ≤ length dropped.old) }
    ensures { (j : Job) → Holds graph.now.input j → Edges (graph_of j) graph.now.first graph.now.succ → WalkedIn j graph.now.walked
        → LiveRows j width used.new dropped.new }
{
    fill(&graph.input, sets, pass);
    let code = usize::from(graph.input.head.code);
    flow::flow(sets, pass, graph, code, Direction::Backward);
    rows(graph, sets, Half::Used, width, used);
    rows(graph, sets, Half::Dropped, width, dropped);
}

// The same by tables of N words.
#[inline(never)]
fn with_tables<const N: usize>(
    graph: &FuncGraph<'_>,
    width: usize,
    used: &mut [u32],
    dropped: &mut [u32],
)
    requires { (4 * graph.now.input.head.code ≤ N) × (N ≤ 4096) × (graph.now.input.head.code ≤ 32 * width) × (width ≤ 32) × (graph.now.input.head.variables ≤ 64) × (64 * width ≤ length used.old) × (64 * width ≤ length dropped.old) }
    ensures { (j : Job) → Holds graph.now.input j → Edges (graph_of j) graph.now.first graph.now.succ → WalkedIn j graph.now.walked
        → LiveRows j width used.new dropped.new }
{
    let mut sets = [0; N];
    let mut pass = [u32::MAX; N];
    by_tables(graph, width, &mut sets, &mut pass, used, dropped);
}

// Fills the rows of a job of the record, `width` words a variable, if that is enough for its points and there is room for 64 rows.
pub fn liveness(graph: &FuncGraph<'_>, width: usize, used: &mut [u32], dropped: &mut [u32])
    ensures { (j : Job) → Holds graph.now.input j → code_count j.blocks ≤ word_bits * width → width ≤ 32
        → 64 * width ≤ length used.old → 64 * width ≤ length dropped.old
        → Edges (graph_of j) graph.now.first graph.now.succ → WalkedIn j graph.now.walked
        → LiveRows j width used.new dropped.new }
{
    if 32 < width {
        return;
    }
    if used.len() < 64 * width {
        return;
    }
    if dropped.len() < 64 * width {
        return;
    }
    let code = usize::from(graph.input.head.code);
    if 32 * width < code {
        return;
    }
    if 64 < graph.input.head.variables {
        return;
    }
    if code <= 32 {
        with_tables::<128>(graph, width, used, dropped);
    } else if code <= 128 {
        with_tables::<512>(graph, width, used, dropped);
    } else {
        with_tables::<4096>(graph, width, used, dropped);
    }
}
