#![tactic(auto)]
// Two types side by side where they lie: their first nodes, and the first of their arguments.
ghost use Rattle.std.specs.Prelude.{◌≡◌, ◌-◌};
ghost use Rattle.beside.specs.Beside.{heads_of, ParameterSays, RegionSays, TypeSays, UnitSays, FirstsSay};

use repr::{
    Argument, BorrowKind, Cursor, Node, Reading, Refusal, Region, RegionName, Row, StructName,
    Variance,
};

// What two types begin with that begin alike: their first nodes, with their regions and where their parts begin.
#[derive(Clone, Copy)]
pub enum Heads {
    Units(Cursor, Cursor),
    Refs {
        kind: BorrowKind,
        r: Region,
        a: Cursor,
        o: Region,
        b: Cursor,
    },
    Structs {
        name: StructName,
        a: Row,
        b: Row,
    },
}

// The first of some arguments: where its type begins, or, where it has none, what follows it.
#[derive(Clone, Copy)]
pub enum First {
    Type(Cursor),
    Other(Cursor),
}

// The first arguments of two rows: regions, and where the others begin; types; or Units, and where the others begin.
#[derive(Clone, Copy)]
pub enum Pair {
    Regions {
        r: Region,
        a: Cursor,
        o: Region,
        b: Cursor,
    },
    Types(Cursor, Cursor),
    Units(Cursor, Cursor),
}

// Where two parts of types end, with how many more nodes the first type may have.
#[derive(Clone, Copy)]
pub struct Both {
    pub left: usize,
    pub a: Cursor,
    pub b: Cursor,
}

// The first parameter's variance, and the others.
#[derive(Clone, Copy)]
pub struct Parameter {
    pub variance: Variance,
    pub others: Row,
}

// What two nodes begin alike, if they do.
pub fn beside(node: Result<Node, Refusal>, other: Result<Node, Refusal>) -> Option<Heads>
    ensures { result ≡ heads_of node other }
{
    match (node, other) {
        (Ok(Node::Unit(a)), Ok(Node::Unit(b))) => Some(Heads::Units(a, b)),
        (
            Ok(
                Node::Ref {
                    kind,
                    region: r,
                    referent: a,
                },
            ),
            Ok(
                Node::Ref {
                    kind: k,
                    region: o,
                    referent: b,
                },
            ),
        ) if kind == k => Some(Heads::Refs { kind, r, a, o, b }),
        (
            Ok(Node::Struct { name, arguments: a }),
            Ok(
                Node::Struct {
                    name: k,
                    arguments: b,
                },
            ),
        ) if name == k => Some(Heads::Structs { name, a, b }),
        _ => None,
    }
}

// The row after its first, which ends where the others begin.
pub fn after(row: Row, next: Cursor) -> Row
    ensures { (result.from ≡ next) × (result.count ≡ row.count - 1) }
{
    Row {
        from: next,
        count: row.count.saturating_sub(1),
    }
}

// The first parameter. The variance is In where there is none.
pub fn first_parameter(s: &[u8], row: Row) -> Parameter
    ensures { ParameterSays s.now row result }
{
    let none = Parameter {
        variance: Variance::In,
        others: row,
    };
    if row.count == 0 {
        return none;
    }
    match row.from.parameter(s) {
        Ok((p, next)) => Parameter {
            variance: p.variance,
            others: after(row, next),
        },
        Err(_) => none,
    }
}

// The region of the first argument, and where the others begin. It is region 0 where the first is a type or there is none.
fn first_region(s: &[u8], row: Row) -> Reading<Region>
    ensures { RegionSays s.now row result }
{
    let region = Region::Free(RegionName(0));
    if row.count == 0 {
        return Ok((region, row.from));
    }
    match row.from.argument(s)? {
        Argument::Region(r, next) => Ok((r, next)),
        Argument::Type(ty) => Ok((region, ty.nodes(s, 32)?.next)),
    }
}

// The type of the first argument. A region, or none at all, counts as Unit.
fn first_type(s: &[u8], row: Row) -> Result<First, Refusal>
    ensures { TypeSays s.now row result }
{
    if row.count == 0 {
        return Ok(First::Other(row.from));
    }
    match row.from.argument(s)? {
        Argument::Region(_, next) => Ok(First::Other(next)),
        Argument::Type(ty) => Ok(First::Type(ty)),
    }
}

// A type beside Unit, after which the others begin at b; none where it is not Unit.
fn unit_first(s: &[u8], c: Cursor, b: Cursor) -> Option<Pair>
    ensures { UnitSays s.now c.at b result }
{
    match c.type_node(s).ok()? {
        Node::Unit(a) => Some(Pair::Units(a, b)),
        _ => None,
    }
}

// The first arguments of two rows, if they are alike; the first has one.
pub fn first_pair(a: &[u8], x: Cursor, b: &[u8], row: Row) -> Option<Pair>
    ensures { FirstsSay a.now x.at b.now row result }
{
    match x.argument(a).ok()? {
        Argument::Region(r, p) => {
            let (o, q) = first_region(b, row).ok()?;
            Some(Pair::Regions { r, a: p, o, b: q })
        }
        Argument::Type(c) => match first_type(b, row).ok()? {
            First::Other(q) => unit_first(a, c, q),
            First::Type(d) => Some(Pair::Types(c, d)),
        },
    }
}
