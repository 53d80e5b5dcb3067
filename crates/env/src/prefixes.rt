// Prefixes of paths: whether a path is one of another, and of which kinds.
ghost use Rattle.std.specs.Prelude.{◌≡◌, true, ◌≤◌, ◌<◌, length};
ghost use Rattle.nll_spec.specs.Syntax.{Job};
ghost use Rattle.nll_spec.specs.Types.{is_prefix, is_supporting, is_frozen};
ghost use Rattle.nll_spec.specs.WellFormed.{path_fits};
ghost use Rattle.repr.specs.Reading.{path_of};
ghost use Rattle.record.specs.Layout.{Holds};
ghost use Rattle.env.specs.Steps.{kinds_of};
ghost use Rattle.env.specs.Prefixes.{later_of, ShortestIn, ShortestOf};

use super::paths::path_type;
use super::{Shortest, Step};
use record::Record;
use repr::Path;

// The steps of a path, as far as there are any.
pub(super) fn steps(s: &[u8], p: Path) -> &[u8]
    ensures { result.now ≡ (path_of s.now p).steps }
{
    let from = p.from.at.min(s.len());
    let rest = &s[from..];
    &rest[..usize::from(p.steps).min(rest.len())]
}

// Whether q is a prefix of p. In line, since the search asks it for each loan.
#[inline(always)]
pub fn is_prefix(s: &[u8], q: Path, p: Path) -> bool
    ensures { (j : Job) → result ≡ is_prefix j (path_of s.now q) (path_of s.now p) }
{
    q.base == p.base && steps(s, p).starts_with(steps(s, q))
}

// How many steps a path has.
pub fn steps_of(s: &[u8], p: Path) -> u8
    ensures { result ≡ length (path_of s.now p).steps }
{
    steps(s, p).len() as u8
}

// The kinds of the types that the steps leave, by number.
pub fn kinds(taken: &[Step; 8]) -> [u8; 8]
    ensures { result ≡ kinds_of taken.now }
{
    taken.map(|step| step.kind())
}

// The shortest prefixes with one step more, the i-th, which leaves a type of this kind.
fn later(r: Shortest, kind: u8, i: u8) -> Shortest
    ensures { result ≡ later_of r kind i }
{
    match kind {
        0 => r,
        2 => Shortest {
            supporting: i,
            frozen: i,
        },
        _ => Shortest {
            supporting: r.supporting,
            frozen: i,
        },
    }
}

// The shortest prefixes of a path of so many steps, by the kinds of the types that they leave.
pub fn shortest(kinds: &[u8; 8], steps: u8) -> Shortest
    ensures { ShortestIn kinds.now steps result }
{
    let mut r = Shortest {
        supporting: 0,
        frozen: 0,
    };
    for i in 0..steps.min(8) {
        r = later(r, kinds[usize::from(i)], i + 1);
    }
    r
}

// Whether q is a supporting prefix of p, whose shortest prefixes are given.
pub fn is_supporting(s: &[u8], q: Path, p: Path, of: Shortest) -> bool
    ensures { (j : Job) → ShortestOf j (path_of s.now p) of → result ≡ is_supporting j (path_of s.now q) (path_of s.now p) }
{
    of.supporting <= steps_of(s, q) && is_prefix(s, q, p)
}

// Whether q is a frozen prefix of p, whose shortest prefixes are given.
pub fn is_frozen(s: &[u8], q: Path, p: Path, of: Shortest) -> bool
    ensures { (j : Job) → ShortestOf j (path_of s.now p) of → result ≡ is_frozen j (path_of s.now q) (path_of s.now p) }
{
    of.frozen <= steps_of(s, q) && is_prefix(s, q, p)
}

// The shortest prefixes of a path.
pub fn shortest_of(input: &Record<'_>, p: Path) -> Shortest
    ensures { (j : Job) → Holds input.now j → p.base.0 < length j.variables → path_fits j (path_of input.now.bytes.now p) ≡ true → length (path_of input.now.bytes.now p).steps ≤ 8 → ShortestOf j (path_of input.now.bytes.now p) result }
{
    if p.steps == 0 {
        return Shortest {
            supporting: 0,
            frozen: 0,
        };
    }
    let mut out = [0; 512];
    let mut spare = [0; 512];
    let mut taken = [Step::Owned; 8];
    path_type(input, p, &mut out, &mut spare, &mut taken);
    shortest(&kinds(&taken), steps_of(input.bytes, p))
}
