// The types along a path: whether its steps may be taken, what each leaves and what the last reaches.
ghost use Rattle.std.specs.Prelude.{◌≡◌, ◌+◌, ◌≤◌, length, set};
ghost use Rattle.repr.specs.Reading.{region_of};
ghost use Rattle.env.specs.Steps.{kinds_of, names_of};
ghost use Rattle.env.specs.Paths.{Named, FieldStepSays, StepSays, CopiedSays, AlongSays, OnwardSays, PathSays};

use super::Step;
use super::fields::field_type;
use super::prefixes::steps;
use record::Record;
use repr::{Cursor, FieldName, Node, Path, Region, RegionName, StructName};
use ty::write::{Arguments, copy, subst};

// A type that steps reach: in the bytes that they begin in, or written into others.
#[derive(Clone, Copy)]
pub enum Found<T> {
    Inside(Cursor),
    Written(T),
}

// The type of a path, in the record or written into the lent bytes, from a place on.
pub type PathType = Found<Cursor>;

// The steps of a path that are left, the first of them number i.
#[derive(Clone, Copy)]
struct Ahead<'a> {
    steps: &'a [u8],
    i: usize,
}

// The name of a region, or 0 where it has none.
fn name_of(region: Region) -> RegionName
    ensures { Named (region_of region) result.0 }
{
    match region {
        Region::Free(name) => name,
        Region::Bound(_) => RegionName(0),
    }
}

// What step i leaves. From the ninth on there is no entry.
fn note(taken: &mut [Step; 8], i: usize, step: Step)
    ensures { taken.new ≡ set taken.old i step }
{
    if i < 8 {
        taken[i] = step;
    }
}

// A field of a struct with these arguments, written from the first byte on.
fn field_step(
    input: &Record<'_>,
    name: StructName,
    f: FieldName,
    given: &Arguments<'_>,
    to: &mut [u8; 512],
) -> Option<Found<()>>
    ensures { FieldStepSays input.now name.0 f.0 given.now to.new result }
{
    let x = field_type(input.bytes, input.struct_decl_at(name), f)?;
    subst(input.bytes, x, given, to)?;
    Some(Found::Written(()))
}

// Step i, from the type at c. What it writes begins at the first byte.
fn take_step(
    input: &Record<'_>,
    from: &[u8],
    c: Cursor,
    f: FieldName,
    i: usize,
    to: &mut [u8; 512],
    taken: &mut [Step; 8],
) -> Option<Found<()>>
    ensures { StepSays input.now from.now c.at f.0 i to.new (kinds_of taken.old) (names_of taken.old) (kinds_of taken.new) (names_of taken.new) result }
{
    match c.type_node(from).ok()? {
        Node::Ref {
            kind,
            region,
            referent,
        } => {
            if f.0 != 0 {
                return None;
            }
            let region = name_of(region);
            note(taken, i, Step::Ref { kind, region });
            Some(Found::Inside(referent))
        }
        Node::Struct { name, arguments } => {
            note(taken, i, Step::Owned);
            let given = Arguments {
                bytes: from,
                row: arguments,
            };
            field_step(input, name, f, &given, to)
        }
        _ => None,
    }
}

// The type at c, written from the first of the lent bytes on.
fn copied(s: &[u8], c: Cursor, out: &mut [u8; 512]) -> Option<PathType>
    ensures { CopiedSays s.now c.at out.new result }
{
    copy(s, c, out)?;
    Some(Found::Written(Cursor { at: 0 }))
}

// The steps ahead from the type at `start`, as long as they stay in the same bytes. The type that one does not is written into the others, from the first on, and comes with the steps that are left.
fn steps_within<'a>(
    input: &Record<'_>,
    from: &[u8],
    start: Cursor,
    ahead: Ahead<'a>,
    to: &mut [u8; 512],
    taken: &mut [Step; 8],
) -> Option<Found<Ahead<'a>>>
    requires { ahead.i + length ahead.steps.now ≤ 255 }
    ensures { AlongSays input.now from.now start.at (kinds_of taken.old) (names_of taken.old) ahead.entry.i ahead.entry.steps.now to.new (kinds_of taken.new) (names_of taken.new) result }
{
    let mut c = start;
    for (k, &f) in ahead.steps.iter().enumerate() {
        let i = ahead.i + k;
        match take_step(input, from, c, FieldName(f), i, to, taken)? {
            Found::Written(()) => {
                let steps = &ahead.steps[k + 1..];
                return Some(Found::Written(Ahead { steps, i: i + 1 }));
            }
            Found::Inside(d) => c = d,
        }
    }
    Some(Found::Inside(c))
}

// The steps ahead from the type that the lent bytes begin with. What a step writes goes into the other bytes in turn.
fn steps_on(
    input: &Record<'_>,
    from: Ahead<'_>,
    out: &mut [u8; 512],
    spare: &mut [u8; 512],
    taken: &mut [Step; 8],
) -> Option<PathType>
    requires { from.i + length from.steps.now ≤ 255 }
    ensures { OnwardSays input.now out.old 0 (kinds_of taken.old) (names_of taken.old) from.entry.i from.entry.steps.now out.new (kinds_of taken.new) (names_of taken.new) result }
{
    let start = Cursor { at: 0 };
    let mut ahead = from;
    while !ahead.steps.is_empty() {
        match steps_within(input, out, start, ahead, spare, taken)? {
            Found::Inside(c) => return Some(Found::Written(c)),
            Found::Written(more) => match steps_within(input, spare, start, more, out, taken)? {
                Found::Inside(c) => return copied(spare, c, out),
                Found::Written(rest) => ahead = rest,
            },
        }
    }
    Some(Found::Written(start))
}

// The type of a path whose steps may be taken, and what each of its first 8 steps leaves.
pub fn path_type(
    input: &Record<'_>,
    p: Path,
    out: &mut [u8; 512],
    spare: &mut [u8; 512],
    taken: &mut [Step; 8],
) -> Option<PathType>
    ensures { PathSays input.now p out.new (kinds_of taken.new) (names_of taken.new) result }
{
    let c = input.variable_at(p.base);
    let ahead = Ahead {
        steps: steps(input.bytes, p),
        i: 0,
    };
    match steps_within(input, input.bytes, c, ahead, out, taken)? {
        Found::Inside(d) => Some(Found::Inside(d)),
        Found::Written(rest) => steps_on(input, rest, out, spare, taken),
    }
}
