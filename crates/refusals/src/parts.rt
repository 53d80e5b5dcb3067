// Refusal 6 of structs, outlives lists and variables.
ghost use Rattle.std.specs.Prelude.{◌≡◌, ◌<◌, [], length, take, drop};
ghost use Rattle.nll_spec.specs.Syntax.{UnitTy, Job};
ghost use Rattle.nll_spec.specs.Decode.{field};
ghost use Rattle.nll_spec.specs.Types.{struct_of};
ghost use Rattle.nll_spec.specs.WellFormed.{type_named, field_named, structs_named, outlived_named, variables_named};
ghost use Rattle.record.specs.Layout.{Holds};
ghost use Rattle.refusals.specs.Tests.{Sized, Passes, ItemTested, all_below, struct_named};

use super::names::ty_named;
use record::Record;
use repr::{Cursor, Refusal, RegionName, StructName, Variable};

// A field: its number is not 0, and its type is named.
fn field_named(input: &Record<'_>, c: Cursor) -> Result<Cursor, Refusal>
    ensures { (j : Job) → Sized input.now.head j → Passes field (field_named j) input.now.bytes.now c.at result }
{
    let (number, ty) = c.field(input.bytes)?;
    if number.0 == 0 {
        return Err(Refusal::Name);
    }
    ty_named(input, ty)
}

fn struct_named(input: &Record<'_>, name: StructName) -> bool
    ensures { (j : Job) → Holds input.now j → result ≡ struct_named j (struct_of j.structs name.0) }
{
    let d = input.struct_decl_at(name);
    d.fields
        .from
        .each(d.fields.count, |c| field_named(input, c))
        .is_ok()
}

pub fn structs_named(input: &Record<'_>) -> bool
    ensures { (j : Job) → Holds input.now j → result ≡ structs_named j }
{
    (0..input.head.structs).all(|i| struct_named(input, StructName(i)))
}

// Of so many bytes, as far as there are any, each is below a limit.
pub fn all_below(s: &[u8], from: Cursor, count: u8, limit: u8) -> bool
    ensures { result ≡ all_below limit (take count (drop from.at s.now)) }
{
    let Some(rest) = s.get(from.at..) else {
        return true;
    };
    rest.iter().take(usize::from(count)).all(|x| *x < limit)
}

// The regions that one outlives are declared.
fn outlived_named(input: &Record<'_>, name: RegionName) -> bool
    ensures { (j : Job) → Holds input.now j → name.0 < input.now.head.declared → ItemTested (all_below (length j.outlives)) j.outlives [] name.0 result }
{
    match input.outlives_at(name).count(input.bytes, 0, 16) {
        Ok((n, next)) => all_below(input.bytes, next, n, input.head.declared),
        Err(_) => false,
    }
}

pub fn outlives_named(input: &Record<'_>) -> bool
    ensures { (j : Job) → Holds input.now j → result ≡ outlived_named j }
{
    (0..input.head.declared).all(|i| outlived_named(input, RegionName(i)))
}

fn variable_named(input: &Record<'_>, v: Variable) -> bool
    ensures { (j : Job) → Holds input.now j → v.0 < input.now.head.variables → ItemTested (type_named j) j.variables UnitTy v.0 result }
{
    ty_named(input, input.variable_at(v)).is_ok()
}

pub fn variables_named(input: &Record<'_>) -> bool
    ensures { (j : Job) → Holds input.now j → result ≡ variables_named j }
{
    (0..input.head.variables).all(|i| variable_named(input, Variable(i)))
}
