#![tactic(auto)]
// The regions' starting sets: a declared region has every walked point and the ends of what it outlives; any other has the walked points on entry to
// which a variable is live that has it in its type.
mod declared;
mod regions;
mod rows;

ghost use Rattle.std.specs.Prelude.{◌≡◌, ◌*◌, ◌≤◌, length, T};
ghost use Rattle.nll_spec.specs.Syntax.{Job};
ghost use Rattle.nll_spec.specs.Decode.{point_count};
ghost use Rattle.nll_spec.specs.WellFormed.{named};
ghost use Rattle.nll_spec.specs.Output.{word_count};
ghost use Rattle.record.specs.Layout.{Holds};
ghost use Rattle.liveness.specs.Rows.{LiveRows};
ghost use Rattle.graph.specs.Search.{WalkedIn};
ghost use Rattle.seeds.specs.Seeded.{Seeded};

use declared::ends;
use graph::tables::FuncGraph;
use rows::Rows;

// Which regions are taken of a type: every one, those that a drop of it needs, or none.
#[derive(Clone, Copy, PartialEq, Eq)]
pub enum Which {
    Every,
    Dropped,
    Nothing,
}

// The seeds of a job's regions, in rows of `width` words. Row v of `used` and of `dropped` has the walked points on entry to which variable v is
// used or dropped later.
pub fn seeds(graph: &FuncGraph<'_>, used: &[u32], dropped: &[u32], width: usize, words: &mut [u32])
    ensures { (j : Job) → Holds graph.now.input j → T (named j) → point_count j ≤ 1024
        → WalkedIn j graph.now.walked → 64 * width ≤ length used.now → 64 * width ≤ length dropped.now → LiveRows j width used.now dropped.now
        → width ≡ word_count (point_count j) → j.regions * width ≤ length words.old
        → Seeded j width words.old words.new }
{
    if 32 < width {
        return;
    }
    let input = &graph.input;
    bit_set::clear(words, 0, usize::from(input.head.regions) * width);
    let mut outlived = [0; 16];
    ends(input, &mut outlived);
    let mut rows = Rows { words, width };
    rows.fill_declared(graph, &outlived);
    rows.fill_live(input, used, dropped);
}
