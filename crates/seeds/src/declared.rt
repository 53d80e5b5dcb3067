// What each declared region outlives: row r, a word, has the regions that region r outlives.
ghost use Rattle.std.specs.Prelude.{◌≡◌, [], ◌+◌, ◌*◌, ◌<◌, length, get_or, take};
ghost use Rattle.nll_spec.specs.Output.{word_bits};
ghost use Rattle.nll_spec.specs.Syntax.{Job};
ghost use Rattle.repr.specs.Reading.{rest};
ghost use Rattle.record.specs.Layout.{Holds};
ghost use Rattle.bit_set.specs.Bits.{with_bit};
ghost use Rattle.seeds.specs.Chosen.{add_all};
ghost use Rattle.seeds.specs.Closure.{linked, passed, closed, Listing, Ends};

use record::Record;
use repr::{Cursor, RegionName};

// Puts so many bytes, as far as there are any, into row r.
fn add_bytes(s: &[u8], from: Cursor, count: u8, r: usize, rows: &mut [u32; 16])
    ensures { rows.new ≡ add_all rows.old r (take count (rest s.now from)) }
{
    let Some(rest) = s.get(from.at..) else {
        return;
    };
    for x in &rest[..usize::from(count).min(rest.len())] {
        bit_set::add(rows, r, usize::from(*x));
    }
}

// Puts region r and what it is listed to outlive into row r.
fn listed(input: &Record<'_>, r: u8, rows: &mut [u32; 16])
    ensures { (j : Job) → Holds input.now j → r < length j.outlives
        → rows.new ≡ add_all (with_bit rows.old (word_bits * r + r)) r (get_or j.outlives r []) }
{
    let row = usize::from(r);
    bit_set::add(rows, row, row);
    let at = input.outlives_at(RegionName(r));
    if let Ok((n, from)) = at.count(input.bytes, 0, 16) {
        add_bytes(input.bytes, from, n, row, rows);
    }
}

// Puts row k into row r, if r outlives k.
fn link(rows: &mut [u32; 16], r: usize, k: usize)
    ensures { rows.new ≡ linked rows.old r k }
{
    if bit_set::test(rows, r, k) {
        bit_set::union(rows, r, k, 1);
    }
}

// The same for each row below n.
fn pass(rows: &mut [u32; 16], n: usize, k: usize)
    ensures { rows.new ≡ passed n k rows.old }
{
    for r in 0..n {
        link(rows, r, k);
    }
}

// For each k below n: the rows below n that have k get row k.
fn close(rows: &mut [u32; 16], n: usize)
    ensures { rows.new ≡ closed n n rows.old }
{
    for k in 0..n {
        pass(rows, n, k);
    }
}

// Each declared region's row, with the region and what it is listed to outlive.
fn list_all(input: &Record<'_>, rows: &mut [u32; 16])
    ensures { Listing input.now input.now.head.declared rows.new }
{
    bit_set::clear(rows, 0, 16);
    for r in 0..input.head.declared {
        listed(input, r, rows);
    }
}

// The rows of a job's declared regions.
pub fn ends(input: &Record<'_>, rows: &mut [u32; 16])
    ensures { Ends input.now rows.new }
{
    list_all(input, rows);
    close(rows, usize::from(input.head.declared));
}
