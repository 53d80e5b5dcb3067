// Refusal 6 of blocks: their successors, and the paths and regions of their actions.
ghost use Rattle.std.specs.Prelude.{◌≡◌, ◌<◌, ltb};
ghost use Rattle.nll_spec.specs.Syntax.{Job};
ghost use Rattle.nll_spec.specs.Decode.{path, action};
ghost use Rattle.nll_spec.specs.WellFormed.{path_named, action_named};
ghost use Rattle.record.specs.Layout.{Holds};
ghost use Rattle.refusals.specs.Tests.{Sized, Passes, ItemTested, no_block, own_named, block_named, blocks_named};

use super::parts::all_below;
use record::Record;
use repr::{Action, BasicBlockIndex, Cursor, Refusal, RegionName, Variable};

fn is_variable(input: &Record<'_>, v: Variable) -> bool
    ensures { result ≡ ltb v.0 input.now.head.variables }
{
    v.0 < input.head.variables
}

fn is_region(input: &Record<'_>, name: RegionName) -> bool
    ensures { result ≡ ltb name.0 input.now.head.regions }
{
    name.0 < input.head.regions
}

// What an action names, but for the sources of an Init.
fn own_named(input: &Record<'_>, a: Action) -> bool
    ensures { result ≡ own_named input.now.head a }
{
    match a {
        Action::Noop => true,
        Action::Init { dest, .. } => is_variable(input, dest.base),
        Action::Borrow {
            dest,
            region,
            source,
            ..
        } => {
            is_variable(input, dest.base)
                && is_region(input, region)
                && is_variable(input, source.base)
        }
        Action::Assign { dest, source } => {
            is_variable(input, dest.base) && is_variable(input, source.base)
        }
        Action::Constraint { sup, sub } => is_region(input, sup) && is_region(input, sub),
        Action::Use(p) | Action::Drop(p) => is_variable(input, p.base),
        Action::StorageDead(v) => is_variable(input, v),
    }
}

// Where a path ends, if its variable is there.
fn path_named(input: &Record<'_>, c: Cursor) -> Result<Cursor, Refusal>
    ensures { (j : Job) → Sized input.now.head j → Passes path (path_named j) input.now.bytes.now c.at result }
{
    let (p, next) = c.path(input.bytes)?;
    if is_variable(input, p.base) {
        Ok(next)
    } else {
        Err(Refusal::Name)
    }
}

// Where an action ends, if all that it names is there.
fn action_named(input: &Record<'_>, c: Cursor) -> Result<Cursor, Refusal>
    ensures { (j : Job) → Sized input.now.head j → Passes action (action_named j) input.now.bytes.now c.at result }
{
    let (a, next) = c.action(input.bytes)?;
    if own_named(input, a) {
        next.each(a.sources(), |c| path_named(input, c))
    } else {
        Err(Refusal::Name)
    }
}

// Whether the successors of a block, and all that its actions name, are there.
fn block_named(input: &Record<'_>, index: BasicBlockIndex) -> bool
    ensures { (j : Job) → Holds input.now j → index.0 < input.now.head.blocks → ItemTested (block_named j) j.blocks no_block index.0 result }
{
    let Ok(b) = input.block_at(index).block(input.bytes) else {
        return false;
    };
    all_below(
        input.bytes,
        b.successors.from,
        b.successors.count,
        input.head.blocks,
    ) && b
        .actions
        .from
        .each(b.actions.count, |c| action_named(input, c))
        .is_ok()
}

// The same of all blocks, reached or not.
pub fn blocks_named(input: &Record<'_>) -> bool
    ensures { (j : Job) → Holds input.now j → result ≡ blocks_named j }
{
    (0..input.head.blocks).all(|i| block_named(input, BasicBlockIndex(i)))
}
