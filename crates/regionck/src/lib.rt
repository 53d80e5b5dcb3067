#![tactic(auto)]
// The regions' least sets: rounds of the constraints of all actions, until no set grows.
mod round;

ghost use Rattle.std.specs.Prelude.{◌≡◌, false, List, ℕ, ◌≤◌, length};
ghost use Rattle.nll_spec.specs.Syntax.{Job};
ghost use Rattle.bit_set.specs.Bits.{has};
ghost use Rattle.infer.specs.Search.{rule_of, Linked};
ghost use Rattle.regionck.specs.Rounds.{Tells, Seeded, Solved};

use absent_regions::marked;
use graph::tables::FuncGraph;
use infer::{EndRule, Setup, Shape};
use rerun::keep;
use round::{collect, round};

// Each round but the last puts a point into a region's set, and 128 sets of 1024 points hold no more.
const ROUNDS: u32 = 131073;

// Gives each region of the set the mark 1, and each other one 0.
fn tell(grew: &[u32; 4], grown: &mut [u8; 128])
    ensures { Tells grew.now grown.new 128 }
{
    for (r, mark) in grown.iter_mut().enumerate() {
        *mark = u8::from(bit_set::test(grew, 0, r));
    }
}

// Runs rounds until no set grows. The answer has the regions whose sets grew. The constraints for which the list has room are derived once; `recent` gets those
// by which regions were marked; the rows of `absent` get regions that no constraint of a point has as its inner one; `before` is for the words before a round, and may be
// shorter.
fn solve(
    setup: &Setup<'_>,
    words: &mut [u32],
    list: &mut [u32],
    recent: &mut [u32],
    absent: &mut [u32],
    before: &mut [u32],
) -> [u32; 4]
    requires { (i : ℕ) → has absent.old i ≡ false }
    ensures { (j : Job) → Seeded setup.now.graph.now setup.now.shape words.old j → Linked setup.now
        → (marks : List ℕ) → Tells result marks 128 → Solved (rule_of setup.now.rule) j words.old words.new marks }
{
    constraint_list::clear(recent);
    let to = collect(setup, list);
    let mut grew = [0; 4];
    let mut last = [u32::MAX; 4];
    for _ in 0..ROUNDS {
        keep(words, before);
        last = round(setup, words, &last, recent, absent, before, list, to);
        if !infer::any_marked(&last) {
            return grew;
        }
        grew = marked(&grew, &last);
    }
    grew
}

// The same by tables of so many words each. `grown` marks, by 1, the regions whose sets grew.
#[inline(never)]
fn with_tables<const LIST: usize, const RECENT: usize, const ABSENT: usize, const BEFORE: usize>(
    setup: &Setup<'_>,
    words: &mut [u32],
    grown: &mut [u8; 128],
)
    requires { (LIST ≤ 4097) × (RECENT ≤ 4097) × (ABSENT ≤ 4096) × (BEFORE ≤ 4096) }
    ensures { (j : Job) → Seeded setup.now.graph.now setup.now.shape words.old j → Linked setup.now
        → Solved (rule_of setup.now.rule) j words.old words.new grown.new }
{
    let mut list = [0; LIST];
    let mut recent = [0; RECENT];
    let mut absent = [0; ABSENT];
    let mut before = [0; BEFORE];
    let grew = solve(
        setup,
        words,
        &mut list,
        &mut recent,
        &mut absent,
        &mut before,
    );
    tell(&grew, grown);
}

// The words hold the regions' seeds before, and their least sets after. `grown` marks, by 1, the declared regions whose sets exceed their seeds.
pub fn regionck(
    graph: &FuncGraph<'_>,
    shape: Shape,
    rule: EndRule,
    words: &mut [u32],
    grown: &mut [u8; 128],
)
    ensures { (length grown.new ≡ 128) × ((j : Job) → Seeded graph.now shape words.old j → Solved (rule_of rule) j words.old words.new grown.new) }
{
    let chain = dfs::chains(graph, shape.code);
    let setup = Setup {
        graph,
        chain: &chain,
        shape,
        rule,
    };
    if shape.code <= 32 {
        with_tables::<393, 193, 128, 1>(&setup, words, grown);
    } else if shape.code <= 128 {
        with_tables::<1025, 513, 512, 1>(&setup, words, grown);
    } else {
        with_tables::<4097, 4097, 4096, 4096>(&setup, words, grown);
    }
}
