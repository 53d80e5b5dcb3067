#![tactic(auto)]
// Two types related under a variance at a point: the constraints of their regions are added to a list.
mod variance;

ghost use Rattle.std.specs.Prelude.{◌≡◌};
ghost use Rattle.nll_spec.specs.Constraints.{require_outlives, relate_regions};
ghost use Rattle.repr.specs.Reading.{variance_of, region_of};
ghost use Rattle.constraint_list.specs.Listed.{Adds};
ghost use Rattle.relate.specs.Relates.{ParametersSay, TypesRelate, FirstRelates, ArgumentsRelate, Relates, RelatesRef};

use beside::{Both, Heads, Pair, after, beside, first_pair, first_parameter};
use constraint_list::Constraint;
use record::Record;
use repr::{Cursor, Node, Region, RegionName, Row, StructName, Variance};
use variance::{invert, referent_variance, within};

// Two runs of bytes in which types stand, and the point at which those types are related.
#[derive(Clone, Copy)]
pub struct Relation<'a> {
    pub input: &'a Record<'a>,
    pub a: &'a [u8],
    pub b: &'a [u8],
    pub at: u16,
}

// Where two types begin. The first has at most `left` nodes.
#[derive(Clone, Copy)]
struct Types {
    a: Cursor,
    b: Cursor,
    left: usize,
}

// Two rows of arguments for these parameters. The arguments of the first have at most `left` nodes.
#[derive(Clone, Copy)]
struct Rows {
    params: Row,
    a: Row,
    b: Row,
    left: usize,
}

// The first outlives the second. A bound gives no constraint.
pub fn require_outlives(sup: Region, sub: Region, at: u16, list: &mut [u32])
    ensures { Adds (require_outlives at (region_of sup) (region_of sub))
        list.old list.new }
{
    let Region::Free(m) = sup else {
        return;
    };
    let Region::Free(n) = sub else {
        return;
    };
    let c = Constraint {
        sup: m.0,
        sub: n.0,
        point: at,
    };
    constraint_list::add(list, c);
}

// Co: the second outlives the first. Contra: the first outlives the second. In: both.
fn relate_regions(variance: Variance, a: Region, b: Region, at: u16, list: &mut [u32])
    ensures { Adds (relate_regions at (variance_of variance) (region_of a) (region_of b))
        list.old list.new }
{
    match variance {
        Variance::Co => require_outlives(b, a, at, list),
        Variance::Contra => require_outlives(a, b, at, list),
        Variance::In => {
            require_outlives(a, b, at, list);
            require_outlives(b, a, at, list)
        }
    }
}

// A struct's parameters.
fn parameters_of(input: &Record<'_>, name: StructName) -> Row
    ensures { ParametersSay input.now name.0 result }
{
    input.struct_decl_at(name).parameters
}

impl<'a> Relation<'a> {
    // Relates two types.
    #[cycle(relate_arguments_relate_first_relate_types)]
    fn relate_types(&self, two: Types, v: Variance, list: &mut [u32]) -> Option<Both>
        ensures { TypesRelate self.now two.a.at two.b.at two.left (variance_of v)
            list.old list.new result }
    {
        if two.left == 0 {
            return None;
        }
        let left = two.left - 1;
        match beside(two.a.type_node(self.a), two.b.type_node(self.b))? {
            Heads::Units(p, q) => Some(Both { left, a: p, b: q }),
            Heads::Refs {
                kind,
                r,
                a: p,
                o,
                b: q,
            } => {
                relate_regions(invert(v), r, o, self.at, list);
                let w = within(v, referent_variance(kind));
                let to = Types { a: p, b: q, left };
                self.relate_types(to, w, list)
            }
            Heads::Structs { name, a: g, b: h } => {
                let params = parameters_of(self.input, name);
                let of = Rows {
                    params,
                    a: g,
                    b: h,
                    left,
                };
                self.relate_arguments(of, v, list)
            }
        }
    }

    // Relates the first arguments of two rows, under their own variance. The first row has one.
    #[cycle(relate_arguments_relate_first_relate_types)]
    fn relate_first(&self, two: Rows, v: Variance, list: &mut [u32]) -> Option<Both>
        requires { two.a.count ≡ 0 → ⊥ }
        ensures { FirstRelates self.now two.a two.b two.left (variance_of v)
            list.old list.new result }
    {
        let left = two.left;
        match first_pair(self.a, two.a.from, self.b, two.b)? {
            Pair::Regions { r, a: p, o, b: q } => {
                relate_regions(v, r, o, self.at, list);
                Some(Both { left, a: p, b: q })
            }
            Pair::Units(p, q) => {
                if left == 0 {
                    return None;
                }
                Some(Both {
                    left: left - 1,
                    a: p,
                    b: q,
                })
            }
            Pair::Types(p, q) => {
                let to = Types { a: p, b: q, left };
                self.relate_types(to, v, list)
            }
        }
    }

    // Relates two rows of arguments.
    #[cycle(relate_arguments_relate_first_relate_types)]
    fn relate_arguments(&self, two: Rows, v: Variance, list: &mut [u32]) -> Option<Both>
        ensures { ArgumentsRelate self.now two.params two.a two.b two.left (variance_of v)
            list.old list.new result }
    {
        let mut rest = two;
        for _ in 0..two.a.count {
            let own = first_parameter(self.input.bytes, rest.params);
            let w = within(v, own.variance);
            let one = self.relate_first(rest, w, list)?;
            rest = Rows {
                params: own.others,
                a: after(rest.a, one.a),
                b: after(rest.b, one.b),
                left: one.left,
            };
        }
        let end = rest.b.from.arguments(self.b, rest.b.count, 32).ok()?;
        Some(Both {
            left: rest.left,
            a: rest.a.from,
            b: end.next,
        })
    }

    // Relates the type at x of a with the type at y of b, which has its shape.
    pub fn relate(&self, x: Cursor, y: Cursor, variance: Variance, list: &mut [u32])
        ensures { Relates self.now x.at y.at (variance_of variance)
            list.old list.new }
    {
        let two = Types {
            a: x,
            b: y,
            left: 32,
        };
        self.relate_types(two, variance, list);
    }

    // Relates the type at x of a with a Ref of a region to the type at y of b, which has its shape.
    pub fn relate_ref(
        &self,
        x: Cursor,
        region: RegionName,
        y: Cursor,
        variance: Variance,
        list: &mut [u32],
    )
        ensures { RelatesRef region.0 self.now x.at y.at (variance_of variance)
            list.old list.new }
    {
        let Ok(node) = x.type_node(self.a) else {
            return;
        };
        let Node::Ref {
            kind,
            region: r,
            referent,
        } = node
        else {
            return;
        };
        relate_regions(invert(variance), r, Region::Free(region), self.at, list);
        let v = within(variance, referent_variance(kind));
        self.relate(referent, y, v, list);
    }
}
