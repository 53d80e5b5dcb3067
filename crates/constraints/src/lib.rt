#![tactic(auto)]
// The constraints of an action.
ghost use Rattle.std.specs.Prelude.{◌<◌, List, ℕ};
ghost use Rattle.env.specs.Steps.{kind_in, kinds_of, name_in, names_of};
ghost use Rattle.env.specs.Paths.{PathSays};
ghost use Rattle.constraint_list.specs.Listed.{Adds};
ghost use Rattle.constraints.specs.Constraining.{constraints_of, source_constraints, SourceSays, PlaceSays, TypesAdd, PathsAdd, PairAdds, Constrains};

use env::Step;
use env::paths::{Found, PathType, path_type};
use env::prefixes::{kinds, shortest, steps_of};
use record::Record;
use relate::{Relation, require_outlives};
use repr::{Action, Cursor, Path, Region, RegionName, Variance};

// How two types are related: as an assignment's source to its destination, or as a borrow's destination to a Ref of a region to its source.
#[derive(Clone, Copy)]
enum Related {
    Assigned,
    Borrowed(RegionName),
}

// Two paths of the record's job whose types are related at a point.
#[derive(Clone, Copy)]
struct Pair<'a> {
    input: &'a Record<'a>,
    at: u16,
    how: Related,
    p: Path,
    q: Path,
}

// Where a type stands: in these bytes, from a place on.
#[derive(Clone, Copy)]
struct Place<'a> {
    bytes: &'a [u8],
    at: Cursor,
}

// A borrow's region, and how many steps its source has and the source's shortest supporting prefix.
#[derive(Clone, Copy)]
struct Source {
    region: RegionName,
    supporting: usize,
    steps: usize,
}

// Step i of a borrow's source: if it leaves a Ref and ends a supporting prefix, that Ref's region outlives the borrow's.
fn relate_step(of: Source, step: Step, i: usize, at: u16, list: &mut [u32])
    requires { i < 8 }
    ensures { Adds (constraints_of at (kind_in step) (name_in step) of.supporting of.region.0 i)
        list.old list.new }
{
    let Step::Ref { region, .. } = step else {
        return;
    };
    if i + 1 < of.supporting {
        return;
    }
    require_outlives(Region::Free(region), Region::Free(of.region), at, list);
}

// The steps of a borrow's source.
#[tactic(auto, using(crate::proofs::ConstrainLaws::source_more, crate::proofs::ConstrainLaws::source_all))]
fn relate_source(of: Source, taken: &[Step; 8], at: u16, list: &mut [u32])
    ensures { Adds (source_constraints at (kinds_of taken.now) (names_of taken.now) of.supporting of.region.0 of.steps)
        list.old list.new }
{
    for (i, &step) in taken[..of.steps.min(8)].iter().enumerate() {
        relate_step(of, step, i, at, list);
    }
}

// Where a path's type stands: in the record's bytes, or in those that it was written into.
fn place_of<'a>(s: &'a [u8], out: &'a [u8], found: PathType) -> Place<'a>
    ensures { PlaceSays s.now out.now found result }
{
    match found {
        Found::Inside(at) => Place { bytes: s, at },
        Found::Written(at) => Place { bytes: out, at },
    }
}

impl<'a> Pair<'a> {
    // The source of a borrow, by what its steps leave.
    fn source(&self, taken: &[Step; 8]) -> Option<Source>
        ensures { SourceSays self.now (kinds_of taken.now) result }
    {
        let Related::Borrowed(region) = self.how else {
            return None;
        };
        let steps = steps_of(self.input.bytes, self.q);
        let of = shortest(&kinds(taken), steps);
        Some(Source {
            region,
            supporting: usize::from(of.supporting),
            steps: usize::from(steps),
        })
    }

    // Relates the types of the paths, which stand at x and at y.
    fn relate_types(&self, x: Place<'_>, y: Place<'_>, list: &mut [u32])
        ensures { TypesAdd self.now x.entry y.entry
            list.old list.new }
    {
        let relation = Relation {
            input: self.input,
            a: x.bytes,
            b: y.bytes,
            at: self.at,
        };
        match self.how {
            Related::Assigned => relation.relate(x.at, y.at, Variance::Co, list),
            Related::Borrowed(region) => {
                relation.relate_ref(x.at, region, y.at, Variance::Contra, list)
            }
        }
    }

    // The same for what was found of each path, in the record, in a or in b. A path that may not be taken has no type.
    fn relate_found(
        &self,
        a: &[u8; 512],
        b: &[u8; 512],
        p: Option<PathType>,
        q: Option<PathType>,
        list: &mut [u32],
    )
        ensures { (k n kinds names : List ℕ) → PathSays self.now.input.now self.now.p a.now k n p → PathSays self.now.input.now self.now.q b.now kinds names q
            → PathsAdd self.now
            list.old list.new }
    {
        let Some(x) = p else {
            return;
        };
        let Some(y) = q else {
            return;
        };
        let s = self.input.bytes;
        self.relate_types(place_of(s, a, x), place_of(s, b, y), list);
    }

    // The types of paths of which one has steps, and the steps of a borrow's source.
    fn relate_stepped(&self, list: &mut [u32])
        ensures { PairAdds self.now
            list.old list.new }
    {
        let mut a = [0; 512];
        let mut b = [0; 512];
        let mut spare = [0; 512];
        let mut taken = [Step::Owned; 8];
        let x = path_type(self.input, self.p, &mut a, &mut spare, &mut taken);
        let y = path_type(self.input, self.q, &mut b, &mut spare, &mut taken);
        self.relate_found(&a, &b, x, y, list);
        if let Some(of) = self.source(&taken) {
            relate_source(of, &taken, self.at, list);
        }
    }

    // The constraints of an assignment or a borrow, at the point.
    #[tactic(auto, using(crate::proofs::ConstrainLaws::pair_stepless))]
    fn relate_paths(&self, list: &mut [u32])
        ensures { PairAdds self.now
            list.old list.new }
    {
        if self.p.steps != 0 || self.q.steps != 0 {
            self.relate_stepped(list);
            return;
        }
        let bytes = self.input.bytes;
        let x = Place {
            bytes,
            at: self.input.variable_at(self.p.base),
        };
        let y = Place {
            bytes,
            at: self.input.variable_at(self.q.base),
        };
        self.relate_types(x, y, list);
    }
}

// Adds the constraints of the action at a point of the blocks. A Constraint's is at that point, all others at the next one.
pub fn constrain(input: &Record<'_>, at: u16, list: &mut [u32])
    ensures { Constrains input.now at
        list.old list.new }
{
    if 1024 < at {
        return;
    }
    let Ok((a, _)) = input.action_at(usize::from(at)) else {
        return;
    };
    let next = at + 1;
    match a {
        Action::Borrow {
            dest,
            region,
            kind: _,
            source,
        } => {
            let pair = Pair {
                input,
                at: next,
                how: Related::Borrowed(region),
                p: dest,
                q: source,
            };
            pair.relate_paths(list)
        }
        Action::Assign { dest, source } => {
            let pair = Pair {
                input,
                at: next,
                how: Related::Assigned,
                p: source,
                q: dest,
            };
            pair.relate_paths(list)
        }
        Action::Constraint { sup, sub } => {
            require_outlives(Region::Free(sup), Region::Free(sub), at, list)
        }
        _ => {}
    }
}
