#![tactic(auto)]
// The constraints of a job, run again within a round. Which ones, and by which marks, is a matter of time alone.
pub mod point;

ghost use Rattle.std.specs.Prelude.{[], ◌<◌, ◌≤◌, length};
ghost use Rattle.nll_spec.specs.Syntax.{Point};
ghost use Rattle.constraint_list.specs.Listed.{constraints_in, Draws};
ghost use Rattle.absent_regions.specs.Absent.{Marks};
ghost use Rattle.infer.specs.Ran.{Runs};
ghost use Rattle.rerun.specs.Rerun.{no_marks, Holding, RunsAgain, RunsMore, Keeps};

use absent_regions::marked;
use infer::Setup;
use point::point;

// How often constraints are run again, and how many turns there are, at most, before a round of all is due.
const TIMES: u32 = 65536;

// Runs the constraints of the list once, those whose inner set has a mark in `last` or gets one. The answer marks the regions whose sets grew, and so does `grew`.
fn rerun(
    setup: &Setup<'_>,
    words: &mut [u32],
    last: &[u32; 4],
    grew: &mut [u32; 4],
    recent: &mut [u32],
    list: &[u32],
) -> [u32; 4]
    ensures { Runs setup.now last.now (constraints_in list.now) words.old no_marks words.new result
        × Marks grew.old result grew.new
        × Draws (constraints_in list.now) recent.old recent.new }
{
    let mut next = [0; 4];
    setup.run(words, last, &mut next, recent, list);
    *grew = marked(grew, &next);
    next
}

// Runs the constraints of the list until by them no set grows, at most TIMES times; at first those whose inner set has a mark in `fresh`. Marks the regions whose
// sets grew, in `fresh` and in `grew`.
fn settle(
    setup: &Setup<'_>,
    words: &mut [u32],
    fresh: &mut [u32; 4],
    grew: &mut [u32; 4],
    list: &[u32],
)
    ensures { RunsAgain setup.now (constraints_in list.now) words.old grew.old words.new grew.new }
{
    let mut none = [0; 1];
    let mut last = *fresh;
    for _ in 0..TIMES {
        if !infer::any_marked(&last) {
            return;
        }
        last = rerun(setup, words, &last, grew, &mut none, list);
        *fresh = marked(fresh, &last);
    }
}

// Puts the words into `before`, as many as it has, and 0 where there is none. The library's copy would call memmove.
pub fn keep(words: &[u32], before: &mut [u32])
    ensures { Keeps words.now before.old before.new (length before.old) }
{
    let n = words.len().min(before.len());
    for (i, &word) in words[..n].iter().enumerate() {
        before[i] = word;
    }
    before[n..].fill(0);
}

// Empties the list if it has no room for a constraint of each region.
pub fn make_room(list: &mut [u32])
    ensures { Draws [] list.old list.new }
{
    if constraint_list::room(list) < 128 {
        constraint_list::clear(list);
    }
}

// The points of a word of a set from which those of `from` are reached, each followed by the next one and all in the set.
fn lead_within(held: u32, from: u32) -> u32 {
    let a = from | (held & (from >> 1));
    let two = held & (held >> 1);
    let b = a | (two & (a >> 2));
    let four = two & (two >> 2);
    let c = b | (four & (b >> 4));
    let eight = four & (four >> 4);
    let d = c | (eight & (c >> 8));
    let sixteen = eight & (eight >> 8);
    d | (sixteen & (d >> 16))
}

// Adds to `near` the points of the set from word start on from which a point that it lacked before is reached, and the point before each, whose action may have a constraint there.
fn lead(words: &[u32], before: &[u32], start: usize, width: usize, near: &mut [u32; 32])
    requires { (width ≤ 32) × (start ≤ 4096) }
{
    let mut after = 0;
    for k in (0..width).rev() {
        let held = entries::get_or(words, start + k, 0);
        let old = entries::get_or(before, start + k, 0);
        let from = (held ^ (held & old)) | (held & after);
        let lead = lead_within(held, from);
        near[k] |= lead | (lead >> 1) | after;
        after = lead << 31;
    }
}

// The same for the sets of all regions with a mark. Then `before` gets the words.
fn leading(words: &[u32], before: &mut [u32], width: usize, marks: &[u32; 4]) -> [u32; 32] {
    let mut near = [0; 32];
    if 32 < width {
        return near;
    }
    for r in 0..128 {
        if bit_set::test(marks, 0, r) {
            lead(words, before, r * width, width, &mut near);
        }
    }
    keep(words, before);
    near
}

// If p is among the points `near`, and a region with a mark may be the inner one of a constraint of it, by its row of `absent`, runs its constraints once, those whose inner set has
// a mark in `last` or gets one. Marks the regions whose sets grew, in `fresh` and in `grew`.
fn revisit(
    setup: &Setup<'_>,
    words: &mut [u32],
    last: &[u32; 4],
    fresh: &mut [u32; 4],
    grew: &mut [u32; 4],
    recent: &mut [u32],
    near: &[u32; 32],
    absent: &[u32],
    p: usize,
)
    requires { p < setup.now.shape.code }
    ensures { RunsMore setup.now recent.old words.old grew.old recent.new words.new grew.new }
{
    if !bit_set::test(near, 0, p) {
        return;
    }
    let marks = marked(last, fresh);
    if absent_regions::all_in(absent, p, &marks) {
        return;
    }
    let mut list = [0; 265];
    point(setup.graph, p, &mut list);
    let next = rerun(setup, words, last, grew, recent, &list);
    *fresh = marked(fresh, &next);
}

// The same for each point.
fn revisit_near(
    setup: &Setup<'_>,
    words: &mut [u32],
    last: &[u32; 4],
    fresh: &mut [u32; 4],
    grew: &mut [u32; 4],
    recent: &mut [u32],
    near: &[u32; 32],
    absent: &[u32],
)
    ensures { RunsMore setup.now recent.old words.old grew.old recent.new words.new grew.new }
{
    for p in 0..setup.shape.code {
        revisit(setup, words, last, fresh, grew, recent, near, absent, p);
    }
}

// Runs the constraints of the list once, then those of the points that lead to what is new since `before`, which gets the words: those whose inner set has a mark in `last` or gets one.
// The answer marks the regions whose sets grew, and so does `grew`. The list has the constraints of the first points.
fn turn(
    setup: &Setup<'_>,
    words: &mut [u32],
    last: &[u32; 4],
    grew: &mut [u32; 4],
    recent: &mut [u32],
    before: &mut [u32],
    absent: &[u32],
    list: &[u32],
) -> [u32; 4]
    ensures { (to : Point) → Holding setup.now list.now 0 to
        → RunsMore setup.now recent.old words.old grew.old recent.new words.new grew.new }
{
    let near = leading(words, before, setup.shape.width, last);
    make_room(recent);
    let mut fresh = rerun(setup, words, last, grew, recent, list);
    revisit_near(setup, words, last, &mut fresh, grew, recent, &near, absent);
    fresh
}

// The same, each time with the constraints of `recent` after it, until no set grows, at most TIMES times, by the marks `marks` at first.
fn turns(
    setup: &Setup<'_>,
    words: &mut [u32],
    marks: [u32; 4],
    grew: &mut [u32; 4],
    recent: &mut [u32],
    before: &mut [u32],
    absent: &[u32],
    list: &[u32],
)
    ensures { (to : Point) → Holding setup.now list.now 0 to
        → RunsMore setup.now recent.old words.old grew.old recent.new words.new grew.new }
{
    let mut last = marks;
    for _ in 0..TIMES {
        if !infer::any_marked(&last) {
            return;
        }
        last = turn(setup, words, &last, grew, recent, before, absent, list);
        settle(setup, words, &mut last, grew, recent);
    }
}

// Runs the constraints of `recent` until by them no set grows. If there are points from `to` on, runs those of the list and of points that lead to what is new again too: `before` has
// words as they were. `grew` marks the regions whose sets grew. The list has the constraints of the points before `to`.
pub fn repeat(
    setup: &Setup<'_>,
    words: &mut [u32],
    grew: &mut [u32; 4],
    recent: &mut [u32],
    before: &mut [u32],
    absent: &[u32],
    list: &[u32],
    to: usize,
)
    ensures { Holding setup.now list.now 0 to
        → RunsMore setup.now recent.old words.old grew.old recent.new words.new grew.new }
{
    let mut last = *grew;
    settle(setup, words, &mut last, grew, recent);
    if setup.shape.code <= to {
        return;
    }
    turns(setup, words, last, grew, recent, before, absent, list);
}
