// What a block of the record has.
ghost use Rattle.std.specs.Prelude.{get_or};
ghost use Rattle.graph.specs.Shape.{Listed, ShapeSays};

use super::Shape;
use record::Record;
use repr::{BasicBlockData, BasicBlockIndex};

// The counts of a block, with the row of successors cut where the record ends.
fn listed<'a>(s: &'a [u8], d: BasicBlockData) -> Shape<'a>
    ensures { Listed s.entry.now d result }
{
    let row = s.get(d.successors.from.at..).unwrap_or(&[]);
    let count = usize::from(d.successors.count).min(row.len());
    Shape {
        actions: usize::from(d.actions.count),
        successors: &row[..count],
    }
}

// What block b has. Where the record has no block, nothing.
pub fn shape<'a>(input: &Record<'a>, b: BasicBlockIndex) -> Shape<'a>
    ensures { ShapeSays input.now.bytes.now (get_or input.now.layout.now.blocks b.0 0) result }
{
    match input.block_at(b).block(input.bytes) {
        Ok(d) => listed(input.bytes, d),
        Err(_) => Shape {
            actions: 0,
            successors: &[],
        },
    }
}
