// The words of an answer: the regions' sets.
ghost use Rattle.std.specs.Prelude.{◌*◌, ◌≤◌, length};
ghost use Rattle.nll.specs.Steps.{Seeds, Solves};

use super::room::shape_of;
use graph::tables::FuncGraph;
use infer::EndRule;
use liveness::liveness;
use regionck::regionck;
use seeds::seeds;

// Fills the words with the regions' seeds. `used` and `dropped` are for the variables' rows of points.
fn by_rows(
    graph: &FuncGraph<'_>,
    width: usize,
    used: &mut [u32],
    dropped: &mut [u32],
    words: &mut [u32],
)
    requires { (width ≤ 32 → 64 * width ≤ length used.old) × (width ≤ 32 → 64 * width ≤ length dropped.old) }
    ensures { Seeds graph.now width words.old words.new }
{
    liveness(graph, width, used, dropped);
    seeds(graph, used, dropped, width, words);
}

// The same with N words for each of the two tables of rows.
#[inline(never)]
fn with_rows<const N: usize>(graph: &FuncGraph<'_>, width: usize, words: &mut [u32])
    requires { (width ≤ 32 → 64 * width ≤ N) × (N ≤ 2048) }
    ensures { Seeds graph.now width words.old words.new }
{
    let mut used = [0; N];
    let mut dropped = [0; N];
    by_rows(graph, width, &mut used, &mut dropped, words);
}

// The same with rows of a size for sets of so many words.
fn seed(graph: &FuncGraph<'_>, width: usize, words: &mut [u32])
    ensures { Seeds graph.now width words.old words.new }
{
    if width <= 1 {
        with_rows::<64>(graph, width, words);
    } else if width <= 4 {
        with_rows::<256>(graph, width, words);
    } else {
        with_rows::<2048>(graph, width, words);
    }
}

// Fills the words with the regions' least sets, and marks those that are grown.
pub fn solve(graph: &FuncGraph<'_>, words: &mut [u32], grown: &mut [u8; 128])
    ensures { Solves graph.now words.old words.new grown.new }
{
    let shape = shape_of(graph.input.head);
    seed(graph, shape.width, words);
    regionck(graph, shape, EndRule::EveryEnd, words, grown);
}
