// The bytes of an answer: the verdicts, and which declared regions are grown.
ghost use Rattle.std.specs.Prelude.{◌≡◌, ◌+◌, ◌*◌, ◌≤◌, length};
ghost use Rattle.std.proofs.Math.Seq.{paste};
ghost use Rattle.nll_spec.specs.Output.{verdict_bytes};
ghost use Rattle.nll.specs.Steps.{shape_of, Judges};

use super::room::shape_of;
use borrowck::borrow_check;
use graph::tables::FuncGraph;
use loans::{LoanTable, loans};
use loans_in_scope::loans_in_scope;
use record::Head;

// Writes the verdicts, by the regions' sets. `scope` is for the loans in scope.
fn by_scope(graph: &FuncGraph<'_>, words: &[u32], scope: &mut [u32], bytes: &mut [u8])
    requires { graph.now.input.head.code ≤ 1024 → 4 * graph.now.input.head.code ≤ length scope.old }
    ensures { Judges graph.now words.now bytes.old bytes.new }
{
    let shape = shape_of(graph.input.head);
    let mut lent = LoanTable::none();
    loans(graph, &mut lent);
    loans_in_scope(graph, words, shape.width, &lent, scope);
    borrow_check(&graph.input, &lent, scope, bytes);
}

// The same with N words for the loans in scope.
#[inline(never)]
fn with_words<const N: usize>(graph: &FuncGraph<'_>, words: &[u32], bytes: &mut [u8])
    requires { (graph.now.input.head.code ≤ 1024 → 4 * graph.now.input.head.code ≤ N) × (N ≤ 4096) }
    ensures { Judges graph.now words.now bytes.old bytes.new }
{
    let mut scope = [0; N];
    by_scope(graph, words, &mut scope, bytes);
}

// The same with words of a size for so many points.
pub fn verdicts(graph: &FuncGraph<'_>, words: &[u32], bytes: &mut [u8])
    ensures { Judges graph.now words.now bytes.old bytes.new }
{
    let code = graph.input.head.code;
    if code <= 32 {
        with_words::<128>(graph, words, bytes);
    } else if code <= 128 {
        with_words::<512>(graph, words, bytes);
    } else {
        with_words::<4096>(graph, words, bytes);
    }
}

// Writes the marks of the declared regions after the verdicts.
pub fn marks(head: Head, grown: &[u8; 128], bytes: &mut [u8])
    requires { (head.declared ≤ 128) × (verdict_bytes * (shape_of head).points + head.declared ≤ length bytes.old) }
    ensures { bytes.new ≡ paste bytes.old (verdict_bytes * (shape_of head).points) grown.now head.declared }
{
    let at = 2 * shape_of(head).points;
    let many = usize::from(head.declared);
    bytes[at..at + many].copy_from_slice(&grown[..many]);
}
