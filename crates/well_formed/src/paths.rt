// Refusal 8: paths whose steps may not be taken.
ghost use Rattle.std.specs.Prelude.{◌≡◌, true};
ghost use Rattle.nll_spec.specs.Lists.{every};
ghost use Rattle.nll_spec.specs.Syntax.{Job};
ghost use Rattle.nll_spec.specs.Decode.{items, path};
ghost use Rattle.repr.specs.Reading.{path_of};
ghost use Rattle.record.specs.Layout.{Holds};
ghost use Rattle.refusals.specs.Tests.{Passes, Tested};
ghost use Rattle.well_formed.specs.Tests.{number_in, refusal_of, path_taken, TypeSays};

use env::Step;
use env::paths::{PathType, path_type};
use record::Record;
use repr::{Cursor, Path, Refusal};

// The type of a path that begins at a variable, in the record or in the lent bytes, if its steps may be taken.
pub fn type_of(input: &Record<'_>, p: Path, out: &mut [u8; 512]) -> Option<PathType>
    ensures { TypeSays input.now p out.new result }
{
    let mut spare = [0; 512];
    let mut taken = [Step::Owned; 8];
    path_type(input, p, out, &mut spare, &mut taken)
}

// A path: it begins at a variable and steps through types of at most 32 nodes.
pub fn path_fits(input: &Record<'_>, p: Path) -> Result<(), Refusal>
    ensures { (j : Job) → Holds input.now j → number_in result ≡ refusal_of (path_taken j (path_of input.now.bytes.now p)) true }
{
    if input.head.variables <= p.base.0 {
        return Err(Refusal::Path);
    }
    if p.steps == 0 {
        return Ok(());
    }
    let mut out = [0; 512];
    type_of(input, p, &mut out).ok_or(Refusal::Path)?;
    Ok(())
}

// Where a path ends, if it fits.
fn path_end(input: &Record<'_>, c: Cursor) -> Result<Cursor, Refusal>
    ensures { (j : Job) → Holds input.now j → Passes path (path_taken j) input.now.bytes.now c.at result }
{
    let (p, next) = c.path(input.bytes)?;
    path_fits(input, p)?;
    Ok(next)
}

// Whether so many paths fit.
pub fn sources_fit(input: &Record<'_>, from: Cursor, count: u8) -> bool
    ensures { (j : Job) → Holds input.now j → Tested (items count path) (every (path_taken j)) input.now.bytes.now from.at result }
{
    from.each(count, |c| path_end(input, c)).is_ok()
}
