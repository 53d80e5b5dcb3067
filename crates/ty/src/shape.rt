// Two types compared where they lie.
ghost use Rattle.repr.specs.Reading.{borrow_kind_of};
ghost use Rattle.ty.specs.Shape.{TypesSay, FirstSays, ArgumentsSay, SameShape, SameAsRef};

use beside::{Both, Heads, Pair, after, beside, first_pair};
use repr::{BorrowKind, Cursor, Node, Row};

// Where two types end, the first of at most `left` nodes, if they have one shape.
#[cycle(same_arguments_same_first_same_types)]
fn same_types(a: &[u8], x: Cursor, b: &[u8], y: Cursor, left: usize) -> Option<Both>
    ensures { TypesSay a.now x.at b.now y.at left result }
{
    if left == 0 {
        return None;
    }
    let left = left - 1;
    match beside(x.type_node(a), y.type_node(b))? {
        Heads::Units(a, b) => Some(Both { left, a, b }),
        Heads::Refs { a: p, b: q, .. } => same_types(a, p, b, q, left),
        Heads::Structs { a: g, b: h, .. } => same_arguments(a, g, b, h, left),
    }
}

// The first arguments of two rows, and where the others begin; the first row has one.
#[cycle(same_arguments_same_first_same_types)]
fn same_first(a: &[u8], x: Cursor, b: &[u8], h: Row, left: usize) -> Option<Both>
    ensures { FirstSays a.now x.at b.now h left result }
{
    match first_pair(a, x, b, h)? {
        Pair::Regions { a, b, .. } => Some(Both { left, a, b }),
        Pair::Units(a, b) => {
            let left = left.checked_sub(1)?;
            Some(Both { left, a, b })
        }
        Pair::Types(c, d) => same_types(a, c, b, d, left),
    }
}

// Two rows of arguments, the first of at most `left` nodes together.
#[cycle(same_arguments_same_first_same_types)]
fn same_arguments(a: &[u8], g: Row, b: &[u8], h: Row, left: usize) -> Option<Both>
    ensures { ArgumentsSay a.now g b.now h left result }
{
    let mut row = h;
    let mut same = Both {
        left,
        a: g.from,
        b: h.from,
    };
    for _ in 0..g.count {
        same = same_first(a, same.a, b, row, same.left)?;
        row = after(row, same.b);
    }
    let rest = row.from.arguments(b, row.count, 32).ok()?;
    Some(Both {
        b: rest.next,
        ..same
    })
}

// Whether two types have one shape.
pub fn same_shape(a: &[u8], x: Cursor, b: &[u8], y: Cursor) -> bool
    ensures { SameShape a.now x.at b.now y.at result }
{
    same_types(a, x, b, y, 32).is_some()
}

// Whether the type at x has the shape of a Ref of a kind to the type at y.
pub fn same_shape_ref(kind: BorrowKind, a: &[u8], x: Cursor, b: &[u8], y: Cursor) -> bool
    ensures { SameAsRef (borrow_kind_of kind) a.now x.at b.now y.at result }
{
    let Ok(node) = x.type_node(a) else {
        return false;
    };
    match node {
        Node::Ref {
            kind: own,
            referent,
            ..
        } => own == kind && same_shape(a, referent, b, y),
        _ => false,
    }
}
