// The five counts, the parts that they count, and the limits of a whole record.
ghost use Rattle.std.specs.Prelude.{◌≡◌, ◌≤◌, length};
ghost use Rattle.record.specs.Layout.{InRange, CountsSay, PartsSay, verdict_of};

use super::blocks::blocks;
use super::rows::{outlives_end, row};
use super::{Code, Counts, Head, Offsets};
use repr::{Cursor, Reading, Refusal};

// The five counts: structs, regions, declared regions, variables, blocks.
pub fn counts(c: Cursor, s: &[u8]) -> Reading<Counts>
    ensures { CountsSay s.now c.at result }
{
    let (structs, second) = c.count(s, 0, 16)?;
    let (regions, third) = second.count(s, 0, 128)?;
    let (declared, fourth) = third.count(s, 0, 16)?;
    let (variables, last) = fourth.count(s, 0, 64)?;
    let (blocks, next) = last.count(s, 1, 64)?;
    let n = Counts {
        structs,
        regions,
        declared,
        variables,
        blocks,
    };
    Ok((n, next))
}

// The parts that are counted.
pub fn parts(n: Counts, c: Cursor, s: &[u8], layout: &mut Offsets) -> Result<Code, Refusal>
    requires { InRange n × (length s.now ≤ 65535) }
    ensures { PartsSay n s.now c.at layout.new result }
{
    let second = row(Cursor::struct_end, c, s, n.structs, &mut layout.structs)?;
    let third = row(outlives_end, second, s, n.declared, &mut layout.outlives)?;
    let last = row(Cursor::ty, third, s, n.variables, &mut layout.variables)?;
    blocks(last, s, n.blocks, layout)
}

// What a record of this size is, by what was read of it: bytes that follow are `Refusal::Form`, then too many points or loans `Refusal::Size`.
pub fn verdict(n: Counts, size: usize, code: Code) -> Result<Head, Refusal>
    requires { code.points ≤ 16384 }
    ensures { result ≡ verdict_of n size code.next code.points code.loans }
{
    if code.next.at < size {
        return Err(Refusal::Form);
    }
    if 1024 < code.points + usize::from(n.declared) {
        return Err(Refusal::Size);
    }
    if 128 < code.loans {
        return Err(Refusal::Size);
    }
    Ok(Head {
        structs: n.structs,
        regions: n.regions,
        declared: n.declared,
        variables: n.variables,
        blocks: n.blocks,
        code: code.points as u16,
    })
}
