// Structs, outlives lists and variables: a row of each, with where each part lies.
ghost use Rattle.std.specs.Prelude.{◌≡◌, ◌≤◌, min, length, drop};
ghost use Rattle.nll_spec.specs.Decode.{counted, max_outlived, byte};
ghost use Rattle.repr.specs.Reading.{ended, end_says};
ghost use Rattle.record.specs.Rows.{Part, Ends, RowSays};

use repr::{Cursor, Refusal};

// A place as an entry of a table. No record is so long that it stands for another.
pub fn offset(c: Cursor) -> u16
    ensures { result ≡ min c.at 65535 }
{
    c.at.min(65535) as u16
}

// Where the list of the regions that a declared region outlives ends.
pub fn outlives_end(c: Cursor, s: &[u8]) -> Result<Cursor, Refusal>
    ensures { end_says s.now result ≡ ended (counted max_outlived byte (drop c.at s.now)) }
{
    let (n, next) = c.count(s, 0, 16)?;
    next.bytes(s, n)
}

// So many parts, each with its entry; `end` finds where the part at a place ends.
pub fn row<F: Fn(Cursor, &[u8]) -> Result<Cursor, Refusal>>(
    end: F,
    from: Cursor,
    s: &[u8],
    count: u8,
    entries: &mut [u16],
) -> Result<Cursor, Refusal>
    requires fits { (count ≤ length entries.old) × (length s.now ≤ 65535) }
    requires callable { F.IsAlwaysCallable end }
    ensures { (part : Part) → Ends part (F.post end) → RowSays part s.now from count entries.old entries.new result }
{
    let mut c = from;
    for entry in &mut entries[..usize::from(count)] {
        *entry = offset(c);
        c = end(c, s)?;
    }
    Ok(c)
}
