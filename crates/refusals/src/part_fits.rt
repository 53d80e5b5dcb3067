// Refusal 7 of structs and variables.
ghost use Rattle.std.specs.Prelude.{◌≡◌, ◌<◌, []};
ghost use Rattle.nll_spec.specs.Syntax.{UnitTy, Job};
ghost use Rattle.nll_spec.specs.Types.{struct_of};
ghost use Rattle.nll_spec.specs.WellFormed.{type_fits, fields_fit, variables_fit};
ghost use Rattle.record.specs.Layout.{Holds};
ghost use Rattle.refusals.specs.Tests.{ItemTested};
ghost use Rattle.refusals.specs.Fits.{struct_fits};

use super::fits::Around;
use record::Record;
use repr::{Row, StructName, Variable};

// A struct: its fields, with its parameters around them.
fn struct_fits(input: &Record<'_>, name: StructName) -> bool
    ensures { (j : Job) → Holds input.now j → result ≡ struct_fits j (struct_of j.structs name.0) }
{
    let d = input.struct_decl_at(name);
    let around = Around {
        input,
        params: d.parameters,
    };
    d.fields
        .from
        .each(d.fields.count, |c| around.field_fits(c))
        .is_ok()
}

pub fn structs_fit(input: &Record<'_>) -> bool
    ensures { (j : Job) → Holds input.now j → result ≡ fields_fit j }
{
    (0..input.head.structs).all(|i| struct_fits(input, StructName(i)))
}

// A variable's type: no parameters stand around it.
fn variable_fits(input: &Record<'_>, v: Variable) -> bool
    ensures { (j : Job) → Holds input.now j → v.0 < input.now.head.variables → ItemTested (type_fits j.structs []) j.variables UnitTy v.0 result }
{
    let c = input.variable_at(v);
    let params = Row { from: c, count: 0 };
    Around { input, params }.ty_fits(c).is_ok()
}

pub fn variables_fit(input: &Record<'_>) -> bool
    ensures { (j : Job) → Holds input.now j → result ≡ variables_fit j }
{
    (0..input.head.variables).all(|i| variable_fits(input, Variable(i)))
}
