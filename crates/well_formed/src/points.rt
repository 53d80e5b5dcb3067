// Refusals 8 and 9: the actions of all points.
ghost use Rattle.std.specs.Prelude.{◌≡◌, T};
ghost use Rattle.nll_spec.specs.Syntax as syntax;
ghost use Rattle.nll_spec.specs.Syntax.{Job};
ghost use Rattle.nll_spec.specs.WellFormed.{named, paths_fit, shape_fits, shapes_fit};
ghost use Rattle.record.specs.Layout.{Holds};
ghost use Rattle.record.specs.Access.{Acts};
ghost use Rattle.well_formed.specs.Tests.{number_in, refusal_of, action_taken, own_taken, own_shape};

use super::paths::{path_fits, sources_fit};
use super::shapes::{Wanted, pair_refusal};
use record::Record;
use repr::{Action, Path, Reading, Refusal};

// An action, but for the sources of an Init.
fn own_refusal(input: &Record<'_>, a: Action) -> Result<(), Refusal>
    ensures { (j : Job) → Holds input.now j → number_in result ≡ refusal_of (own_taken j input.now.bytes.now a) (own_shape j input.now.bytes.now a) }
{
    match a {
        Action::Init { dest: p, .. } | Action::Use(p) | Action::Drop(p) => path_fits(input, p),
        Action::Borrow {
            dest,
            kind,
            source,
            ..
        } => pair_refusal(Wanted::RefTo(kind), input, dest, source),
        Action::Assign { dest, source } => pair_refusal(Wanted::Same, input, source, dest),
        _ => Ok(()),
    }
}

fn action_refusal(input: &Record<'_>, d: Reading<Action>) -> Result<(), Refusal>
    ensures { (j : Job) (a : syntax.Action) → Holds input.now j → Acts input.now.bytes.now a d → number_in result ≡ refusal_of (action_taken j a) (shape_fits j a) }
{
    let Ok((a, sources)) = d else {
        return Err(Refusal::Path);
    };
    if !sources_fit(input, sources, a.sources()) {
        return Err(Refusal::Path);
    }
    own_refusal(input, a)
}

// The first refusal from 8 to 9 that applies: 8 at any point comes before 9 at any.
pub fn points_refusal(input: &Record<'_>) -> Result<(), Refusal>
    ensures { (j : Job) → Holds input.now j → T (named j) → number_in result ≡ refusal_of (paths_fit j) (shapes_fit j) }
{
    let mut fits = true;
    for p in 0..usize::from(input.head.code) {
        let found = action_refusal(input, input.action_at(p));
        if found == Err(Refusal::Path) {
            return found;
        }
        fits &= found.is_ok();
    }
    if fits { Ok(()) } else { Err(Refusal::Shape) }
}
