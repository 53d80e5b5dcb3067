#![tactic(auto)]
// Refusals 6 and 7 of a record that was read.
mod actions;
mod fits;
mod names;
mod part_fits;
mod parts;

ghost use Rattle.std.specs.Prelude.{◌≡◌};
ghost use Rattle.nll_spec.specs.Syntax.{Job};
ghost use Rattle.nll_spec.specs.WellFormed as well_formed;
ghost use Rattle.record.specs.Layout.{Holds};

use actions::blocks_named;
use part_fits::{structs_fit, variables_fit};
use parts::{outlives_named, structs_named, variables_named};
use record::Record;

// Whether every number of a job names something: refusal 6 does not apply.
pub fn named(input: &Record<'_>) -> bool
    ensures { (j : Job) → Holds input.now j → result ≡ well_formed.named j }
{
    input.head.declared <= input.head.regions
        && structs_named(input)
        && outlives_named(input)
        && variables_named(input)
        && input.head.blocks != 0
        && blocks_named(input)
}

// Whether arguments and bounds fit the parameters: refusal 7 does not apply.
pub fn types_fit(input: &Record<'_>) -> bool
    ensures { (j : Job) → Holds input.now j → result ≡ well_formed.types_fit j }
{
    structs_fit(input) && variables_fit(input)
}
