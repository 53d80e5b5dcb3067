// Blocks: where each lies, its first point, and where the action of each point lies.
ghost use Rattle.std.specs.Prelude.{◌≡◌, ◌≤◌, length, set};
ghost use Rattle.record.specs.Blocks.{ActionSays, ActionsSay, BlocksSay};

use super::rows::offset;
use super::{Code, END, Offsets};
use repr::{Cursor, Reading, Refusal};

// Keeps a point's entry, where there is one for it.
fn keep(points: &mut [u16; 1024], point: usize, entry: u16)
    ensures { points.new ≡ set points.old point entry }
{
    if point < 1024 {
        points[point] = entry;
    }
}

// How many loans an action makes, and where it ends.
fn action_end(c: Cursor, s: &[u8]) -> Reading<usize>
    ensures { ActionSays s.now c.at result }
{
    let (a, next) = c.action(s)?;
    let end = next.paths(s, a.sources())?;
    Ok((a.loans(), end))
}

// Keeps where so many actions lie, which are the points from `first` on, and that the end of their block follows. Answers how many loans they make, and where they end.
fn actions(
    from: Cursor,
    s: &[u8],
    count: u8,
    first: usize,
    points: &mut [u16; 1024],
) -> Reading<usize>
    requires { (first ≤ 16384) × (length s.now ≤ 65535) }
    ensures { ActionsSay s.now from count first points.old points.new result }
{
    let many = usize::from(count);
    let mut c = from;
    let mut loans = 0;
    for i in 0..many {
        keep(points, first + i, offset(c));
        let (more, next) = action_end(c, s)?;
        c = next;
        loans += more;
    }
    keep(points, first + many, END);
    Ok((loans, c))
}

// Keeps where so many blocks lie, their first points and their actions. Answers where they end, and how many points and loans they have.
pub fn blocks(from: Cursor, s: &[u8], count: u8, layout: &mut Offsets) -> Result<Code, Refusal>
    requires { (count ≤ 64) × (length s.now ≤ 65535) }
    ensures { BlocksSay s.now from count layout.old layout.new result }
{
    let mut c = from;
    let mut points = 0;
    let mut loans = 0;
    for b in 0..usize::from(count) {
        layout.blocks[b] = offset(c);
        layout.first[b] = points as u16;
        let d = c.block(s)?;
        let (more, next) = actions(
            d.actions.from,
            s,
            d.actions.count,
            points,
            &mut layout.points,
        )?;
        c = next;
        points += usize::from(d.actions.count) + 1;
        loans += more;
    }
    Ok(Code {
        next: c,
        points,
        loans,
    })
}
