// The walked blocks, by a search from the start block, and their points.
ghost use Rattle.std.specs.Prelude.{◌≡◌, ◌+◌, ◌≤◌, length, T, ltb};
ghost use Rattle.nll_spec.specs.Syntax.{Job};
ghost use Rattle.nll_spec.specs.Decode.{point_count};
ghost use Rattle.nll_spec.specs.WellFormed.{successors_named};
ghost use Rattle.record.specs.Layout.{Holds};
ghost use Rattle.graph.specs.Search.{state_of, Roomy, visited, visits, WalkedBlocks, with_run, BlockPoints, WalkedIn};

use super::search::Search;
use super::shapes::shape;
use record::Record;
use repr::BasicBlockIndex;

// Marks and pushes block b, where it has no mark.
fn visit(search: &mut Search<64>, b: u8)
    requires { Roomy (state_of search.old) }
    ensures { state_of search.new ≡ visited b (state_of search.old) }
{
    let at = usize::from(b);
    if 64 <= at {
        return;
    }
    if search.seen[at] != 0 {
        return;
    }
    search.push(u16::from(b));
}

// Visits the successors of a block.
fn visit_next(search: &mut Search<64>, successors: &[u8])
    requires { Roomy (state_of search.old) }
    ensures { state_of search.new ≡ visits successors.now (state_of search.old) }
{
    for &b in successors {
        visit(search, b);
    }
}

// The walked blocks, as marks, of a job that starts at this block.
pub fn blocks(input: &Record<'_>, start: BasicBlockIndex) -> [u8; 64]
    ensures { WalkedBlocks input.now.bytes.now input.now.layout.now start.0 result }
{
    let mut search = Search::<64>::new();
    visit(&mut search, start.0);
    while let Some(b) = search.pop() {
        let d = shape(input, BasicBlockIndex(b as u8));
        visit_next(&mut search, d.successors);
    }
    search.seen
}

// Puts n points from p on into the set.
fn run(words: &mut [u32; 32], p: usize, n: usize)
    requires { p + n ≤ 1024 }
    ensures { words.new ≡ with_run words.old p n }
{
    for i in 0..n {
        bit_set::add(words, 0, p + i);
    }
}

// Puts the points of block b, the first of which is p, into the set if the block is marked. Returns the next block's first point.
fn block_points(
    input: &Record<'_>,
    seen: &[u8; 64],
    b: u8,
    p: usize,
    words: &mut [u32; 32],
) -> usize
    requires { p ≤ 1024 }
    ensures { BlockPoints input.now.bytes.now input.now.layout.now seen.now b p result words.old words.new }
{
    if 64 <= b {
        return p;
    }
    let d = shape(input, BasicBlockIndex(b));
    let n = d.actions + 1;
    let next = p + n;
    if 1024 < next {
        return p;
    }
    let at = usize::from(b);
    if seen[at] == 0 {
        return next;
    }
    run(words, p, n);
    next
}

// The points of the walked blocks of a job that starts at this block.
pub fn walked(input: &Record<'_>, start: BasicBlockIndex, words: &mut [u32; 32])
    ensures { (j : Job) → Holds input.now j → T (successors_named j) → point_count j ≤ 1024 → j.start ≡ start.0 → T (ltb j.start (length j.blocks)) → WalkedIn j words.new }
{
    let seen = blocks(input, start);
    bit_set::clear(words, 0, 32);
    let mut p = 0;
    for b in 0..input.head.blocks {
        p = block_points(input, &seen, b, p, words);
    }
}
