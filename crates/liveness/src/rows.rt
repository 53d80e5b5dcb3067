// From the points' sets of variables to the variables' rows of points.
ghost use Rattle.std.specs.Prelude.{◌*◌, ◌<◌, ◌≤◌, length};
ghost use Rattle.liveness.specs.Needs.{start_of};
ghost use Rattle.liveness.specs.Rows.{in_set, in_word, Column, Columns};

use super::Half;
use graph::tables::FuncGraph;

// Puts point p into the row of each variable from `first` on and below n that a word has: its first bit is for variable `first`.
fn word_column(w: u32, p: usize, first: usize, n: usize, width: usize, rows: &mut [u32])
    requires { (p < 32 * width) × (width ≤ 32) × (first ≤ n) × (n ≤ 64) × (64 * width ≤ length rows.old) }
    ensures { Column width n (in_word w first) p rows.old rows.new }
{
    let mut rest = w;
    for v in first..n {
        if rest == 0 {
            return;
        }
        if rest % 2 == 1 {
            bit_set::add(rows, v * width, p);
        }
        rest /= 2;
    }
}

// Puts point p into the row of each of so many variables that is in the half of its set.
fn column(sets: &[u32], p: usize, half: Half, many: usize, width: usize, rows: &mut [u32])
    requires { (p < 32 * width) × (width ≤ 32) × (many ≤ 64) × (64 * width ≤ length rows.old) }
    ensures { Column width many (in_set sets.now p (start_of half)) p rows.old rows.new }
{
    let at = 4 * p + half.start() / 32;
    let low = entries::get_or(sets, at, 0);
    if many <= 32 {
        word_column(low, p, 0, many, width, rows);
        return;
    }
    word_column(low, p, 0, 32, width, rows);
    let high = entries::get_or(sets, at + 1, 0);
    word_column(high, p, 32, many, width, rows);
}

// The rows of all variables, with the walked points only.
pub fn rows(graph: &FuncGraph<'_>, sets: &[u32], half: Half, width: usize, rows: &mut [u32])
    requires { (graph.now.input.head.code ≤ 32 * width) × (width ≤ 32) × (graph.now.input.head.variables ≤ 64) × (64 * width ≤ length rows.old) }
    ensures { Columns width graph.now.input.head.variables graph.now.input.head.code (start_of half) graph.now.walked sets.now rows.new }
{
    let many = usize::from(graph.input.head.variables);
    bit_set::clear(rows, 0, many * width);
    for p in 0..usize::from(graph.input.head.code) {
        if bit_set::test(&graph.walked, 0, p) {
            column(sets, p, half, many, width, rows);
        }
    }
}
