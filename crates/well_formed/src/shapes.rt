// The refusal of two paths: 8 where one may not be taken, 9 where their types do not fit, none where they do.
ghost use Rattle.well_formed.specs.Tests.{number_in, TypesFit, SecondSays, PairSays};

use super::paths::type_of;
use env::paths::Found;
use record::Record;
use repr::{BorrowKind, Cursor, Path, Refusal};
use ty::shape::{same_shape, same_shape_ref};

// What the first of two types is to have: the shape of the second, or of a Ref of a kind to it.
#[derive(Clone, Copy)]
pub enum Wanted {
    Same,
    RefTo(BorrowKind),
}

// Two types where they stand.
fn types_refusal(wanted: Wanted, a: &[u8], x: Cursor, b: &[u8], y: Cursor) -> Result<(), Refusal>
    ensures { TypesFit wanted a.now x.at b.now y.at (number_in result) }
{
    let fits = match wanted {
        Wanted::Same => same_shape(a, x, b, y),
        Wanted::RefTo(kind) => same_shape_ref(kind, a, x, b, y),
    };
    if fits { Ok(()) } else { Err(Refusal::Shape) }
}

// The type at x, and that of a path.
fn second_refusal(
    wanted: Wanted,
    input: &Record<'_>,
    a: &[u8],
    x: Cursor,
    q: Path,
) -> Result<(), Refusal>
    ensures { SecondSays wanted input.now a.now x.at q (number_in result) }
{
    if input.head.variables <= q.base.0 {
        return Err(Refusal::Path);
    }
    if q.steps == 0 {
        return types_refusal(wanted, a, x, input.bytes, input.variable_at(q.base));
    }
    let mut b = [0; 512];
    match type_of(input, q, &mut b).ok_or(Refusal::Path)? {
        Found::Inside(y) => types_refusal(wanted, a, x, input.bytes, y),
        Found::Written(y) => types_refusal(wanted, a, x, &b, y),
    }
}

// The types of two paths.
pub fn pair_refusal(wanted: Wanted, input: &Record<'_>, p: Path, q: Path) -> Result<(), Refusal>
    ensures { PairSays wanted input.now p q (number_in result) }
{
    if input.head.variables <= p.base.0 {
        return Err(Refusal::Path);
    }
    if p.steps == 0 {
        let x = input.variable_at(p.base);
        return second_refusal(wanted, input, input.bytes, x, q);
    }
    let mut a = [0; 512];
    match type_of(input, p, &mut a).ok_or(Refusal::Path)? {
        Found::Inside(x) => second_refusal(wanted, input, input.bytes, x, q),
        Found::Written(x) => second_refusal(wanted, input, &a, x, q),
    }
}
