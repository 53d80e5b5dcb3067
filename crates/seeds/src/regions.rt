// The names of a type's regions, or of those that its drop needs, as a set of 128 numbers.
ghost use Rattle.std.specs.Prelude.{◌≡◌, List};
ghost use Rattle.nll_spec.specs.Syntax.{Ty, Param, Job};
ghost use Rattle.nll_spec.specs.Decode.{type, items, param};
ghost use Rattle.repr.specs.Reading.{rest, region_of};
ghost use Rattle.repr.specs.Stands.{Stands};
ghost use Rattle.record.specs.Layout.{Holds};
ghost use Rattle.seeds.specs.Chosen.{add_all, in_ref, in_argument, chosen_region, chosen, FirstIs, TypeAdds, ArgumentsAdd};

use super::Which;
use record::Record;
use repr::{Argument, Cursor, Node, Refusal, Region, Rest, Row};

// What is taken of a Ref's referent.
fn in_ref(which: Which) -> Which
    ensures { result ≡ in_ref which }
{
    match which {
        Which::Every => Which::Every,
        Which::Dropped | Which::Nothing => Which::Nothing,
    }
}

// What is taken of a struct's argument, by whether its parameter may dangle.
fn in_argument(which: Which, dangles: bool) -> Which
    ensures { result ≡ in_argument which dangles }
{
    match which {
        Which::Dropped if !dangles => Which::Every,
        _ => which,
    }
}

// Puts a region's name into the set, if every region is taken.
fn add_region(region: Region, which: Which, set: &mut [u32; 4])
    ensures { set.new ≡ add_all set.old 0 (chosen_region which (region_of region)) }
{
    if let (Which::Every, Region::Free(name)) = (which, region) {
        bit_set::add(set, 0, usize::from(name.0));
    }
}

// Whether the first of some parameters may dangle, and the others. Where there is none, nothing may dangle.
fn first_parameter(s: &[u8], parameters: Row) -> Result<(bool, Row), Refusal>
    ensures { (ds : List Param) → Stands (items parameters.count param) ds (rest s.now parameters.from) → FirstIs s.now ds result }
{
    if parameters.count == 0 {
        return Ok((false, parameters));
    }
    let (first, from) = parameters.from.parameter(s)?;
    let count = parameters.count - 1;
    Ok((first.may_dangle, Row { from, count }))
}

// The type that begins there, with at most so many nodes. Answers where it ends.
#[cycle(add_arguments_add_type)]
fn add_type(
    input: &Record<'_>,
    from: Rest,
    which: Which,
    set: &mut [u32; 4],
) -> Result<Rest, Refusal>
    ensures { TypeAdds input.now which from set.old set.new result }
{
    if from.left == 0 {
        return Err(Refusal::Range);
    }
    let left = from.left - 1;
    match from.next.type_node(input.bytes)? {
        Node::Unit(next) | Node::Bound(_, next) => Ok(Rest { left, next }),
        Node::Ref {
            region,
            referent: next,
            ..
        } => {
            add_region(region, which, set);
            add_type(input, Rest { left, next }, in_ref(which), set)
        }
        Node::Struct { name, arguments } => {
            let d = input.struct_decl_at(name);
            let Row { from: next, count } = arguments;
            add_arguments(input, Rest { left, next }, count, d.parameters, which, set)
        }
    }
}

// The same of so many arguments, for these parameters.
#[cycle(add_arguments_add_type)]
fn add_arguments(
    input: &Record<'_>,
    from: Rest,
    count: u8,
    parameters: Row,
    which: Which,
    set: &mut [u32; 4],
) -> Result<Rest, Refusal>
    ensures { ArgumentsAdd input.now which parameters from count set.old set.new result }
{
    let mut rest = from;
    let mut params = parameters;
    for _ in 0..count {
        let (dangles, others) = first_parameter(input.bytes, params)?;
        let inner = in_argument(which, dangles);
        let left = rest.left;
        match rest.next.argument(input.bytes)? {
            Argument::Region(region, next) => {
                add_region(region, inner, set);
                rest = Rest { left, next };
            }
            Argument::Type(next) => rest = add_type(input, Rest { left, next }, inner, set)?,
        }
        params = others;
    }
    Ok(rest)
}

// Puts the regions that are taken of the type at c into the set.
pub fn type_regions(input: &Record<'_>, c: Cursor, which: Which, set: &mut [u32; 4])
    ensures { (j : Job) (t : Ty) → Holds input.now j → Stands type t (rest input.now.bytes.now c)
        → set.new ≡ add_all set.old 0 (chosen which j.structs t) }
{
    // The types of a record that was read are never refused.
    let _ = add_type(input, Rest { left: 32, next: c }, which, set);
}
