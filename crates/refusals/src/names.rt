// Refusal 6 of a type: its regions and structs are there.
ghost use Rattle.std.specs.Prelude.{◌≡◌};
ghost use Rattle.nll_spec.specs.Syntax.{Job};
ghost use Rattle.nll_spec.specs.Decode.{type};
ghost use Rattle.nll_spec.specs.WellFormed.{region_named, type_named};
ghost use Rattle.repr.specs.Reading.{region_of};
ghost use Rattle.refusals.specs.Tests.{Sized, Passes, TypeNamed, ArgumentsNamed};

use record::Record;
use repr::{Argument, Cursor, Node, Refusal, Region, Rest};

fn region_named(input: &Record<'_>, region: Region) -> bool
    ensures { (j : Job) → Sized input.now.head j → result ≡ region_named j (region_of region) }
{
    match region {
        Region::Free(name) => name.0 < input.head.regions,
        Region::Bound(_) => true,
    }
}

// Where a type of at most `left` nodes ends, if its regions and structs are there.
#[cycle(arguments_named_type_named)]
fn type_named(input: &Record<'_>, c: Cursor, left: u8) -> Result<Rest, Refusal>
    ensures { TypeNamed input.now c.at left result }
{
    if left == 0 {
        return Err(Refusal::Name);
    }
    let left = left - 1;
    match c.type_node(input.bytes)? {
        Node::Unit(next) | Node::Bound(_, next) => Ok(Rest { left, next }),
        Node::Ref {
            region,
            referent,
            ..
        } => {
            if !region_named(input, region) {
                return Err(Refusal::Name);
            }
            type_named(input, referent, left)
        }
        Node::Struct { name, arguments } => {
            if input.head.structs <= name.0 {
                return Err(Refusal::Name);
            }
            arguments_named(input, arguments.from, arguments.count, left)
        }
    }
}

// The same of so many arguments of a struct, of at most `left` nodes together.
#[cycle(arguments_named_type_named)]
fn arguments_named(input: &Record<'_>, from: Cursor, count: u8, left: u8) -> Result<Rest, Refusal>
    ensures { ArgumentsNamed input.now from.at count left result }
{
    let mut rest = Rest { left, next: from };
    for _ in 0..count {
        match rest.next.argument(input.bytes)? {
            Argument::Region(region, next) => {
                if !region_named(input, region) {
                    return Err(Refusal::Name);
                }
                rest.next = next;
            }
            Argument::Type(ty) => rest = type_named(input, ty, rest.left)?,
        }
    }
    Ok(rest)
}

// The same of a whole type.
pub fn ty_named(input: &Record<'_>, c: Cursor) -> Result<Cursor, Refusal>
    ensures { (j : Job) → Sized input.now.head j → Passes type (type_named j) input.now.bytes.now c.at result }
{
    Ok(type_named(input, c, 32)?.next)
}
