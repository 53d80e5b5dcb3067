// One round of the constraints.
ghost use Rattle.std.specs.Prelude.{List, ℕ, ◌+◌, ◌≤◌, ◌<◌};
ghost use Rattle.rerun.specs.Rerun.{Holding, OwnKept};
ghost use Rattle.regionck.specs.Rounds.{Sound, RunsBelow, RoundRuns};

use infer::Setup;
use rerun::point::point;
use rerun::{make_room, repeat};

// No action makes more constraints.
const MOST: usize = 264;

// Puts the constraints of the first points into the list, of as many as it has room for whatever a point makes. Returns the first point left out.
pub fn collect(setup: &Setup<'_>, list: &mut [u32]) -> usize
    ensures { Holding setup.now list.new 0 result }
{
    constraint_list::clear(list);
    for p in 0..setup.shape.code {
        if constraint_list::room(list) < MOST {
            return p;
        }
        point(setup.graph, p, list);
    }
    setup.shape.code
}

// Runs the constraints of point p. It is passed by if no region with a mark is the inner one of a constraint of the point, by its row of `absent`.
fn visit(
    setup: &Setup<'_>,
    words: &mut [u32],
    last: &[u32; 4],
    grew: &mut [u32; 4],
    recent: &mut [u32],
    absent: &mut [u32],
    p: usize,
)
    requires { (p < setup.now.shape.code) × Sound setup.now absent.old }
    ensures { ((ws : List ℕ) → RunsBelow setup.now last.now ws words.old grew.old p
        → RunsBelow setup.now last.now ws words.new grew.new (p + 1))
        × OwnKept setup.now recent.old recent.new
        × Sound setup.now absent.new }
{
    let marks = absent_regions::marked(last, grew);
    if absent_regions::all_in(absent, p, &marks) {
        return;
    }
    let mut list = [0; 265];
    point(setup.graph, p, &mut list);
    absent_regions::put(&list, p, absent);
    setup.run(words, last, grew, recent, &list);
}

// Runs the constraints of point `from` and of those after it.
fn rest(
    setup: &Setup<'_>,
    words: &mut [u32],
    last: &[u32; 4],
    grew: &mut [u32; 4],
    recent: &mut [u32],
    absent: &mut [u32],
    from: usize,
)
    requires { (from ≤ setup.now.shape.code) × Sound setup.now absent.old }
    ensures { ((ws : List ℕ) → RunsBelow setup.now last.now ws words.old grew.old from
        → RunsBelow setup.now last.now ws words.new grew.new setup.now.shape.code)
        × OwnKept setup.now recent.old recent.new
        × Sound setup.now absent.new }
{
    for p in from..setup.shape.code {
        visit(setup, words, last, grew, recent, absent, p);
    }
}

// Runs the constraints of each point of walked blocks. The list has the constraints of the points before `to`; `recent` gets those by which regions are marked, and is
// emptied where it is short of room.
fn sweep(
    setup: &Setup<'_>,
    words: &mut [u32],
    last: &[u32; 4],
    recent: &mut [u32],
    absent: &mut [u32],
    list: &[u32],
    to: usize,
) -> [u32; 4]
    requires { Holding setup.now list.now 0 to × Sound setup.now absent.old }
    ensures { RunsBelow setup.now last.now words.old words.new result setup.now.shape.code
        × OwnKept setup.now recent.old recent.new
        × Sound setup.now absent.new }
{
    let mut grew = [0; 4];
    make_room(recent);
    setup.run(words, last, &mut grew, recent, list);
    rest(setup, words, last, &mut grew, recent, absent, to);
    grew
}

// The same, and then some of them again. `before` has the words as they are before.
pub fn round(
    setup: &Setup<'_>,
    words: &mut [u32],
    last: &[u32; 4],
    recent: &mut [u32],
    absent: &mut [u32],
    before: &mut [u32],
    list: &[u32],
    to: usize,
) -> [u32; 4]
    requires { Holding setup.now list.now 0 to × Sound setup.now absent.old }
    ensures { RoundRuns setup.now last.now recent.old words.old words.new result
        × OwnKept setup.now recent.old recent.new
        × Sound setup.now absent.new }
{
    let mut grew = sweep(setup, words, last, recent, absent, list, to);
    repeat(setup, words, &mut grew, recent, before, absent, list, to);
    grew
}
