#![tactic(auto)]
// Refusals 8 and 9 of a record that was read, and the one refusal of a record, if one applies.
mod paths;
mod points;
mod shapes;

ghost use Rattle.std.specs.Prelude.{◌≡◌};
ghost use Rattle.nll_spec.specs.Syntax.{Job};
ghost use Rattle.nll_spec.specs.WellFormed as well_formed;
ghost use Rattle.nll_spec.specs.Output as output;
ghost use Rattle.record.specs.Layout.{Holds, DecodedSays};
ghost use Rattle.well_formed.specs.Tests.{number_in};

use points::points_refusal;
use record::{Head, Offsets, Record, read};
use refusals::{named, types_fit};
use repr::Refusal;

// The first refusal from 6 to 9 that applies to a job.
#[tactic(auto, unfolding(nll_spec::specs::WellFormed::refusal))]
pub fn refusal(input: &Record<'_>) -> Result<(), Refusal>
    ensures { (j : Job) → Holds input.now j → number_in result ≡ well_formed.refusal j }
{
    if !named(input) {
        return Err(Refusal::Name);
    }
    if !types_fit(input) {
        return Err(Refusal::Arguments);
    }
    points_refusal(input)
}

// The refusal of a record, 1 to 9, or the head of its job, with where each part lies. A record that is refused leaves anything in `layout`.
pub fn judge(s: &[u8], layout: &mut Offsets) -> Result<Head, Refusal>
    ensures { DecodedSays (output.judge s.now) s.now layout.new result }
{
    let head = read(s, layout)?;
    let input = Record {
        bytes: s,
        layout,
        head,
    };
    refusal(&input)?;
    Ok(head)
}
