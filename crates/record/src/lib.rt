#![tactic(auto)]
// The whole record: the refusals from `Refusal::Version` to `Refusal::Size`, and where each part of the job lies.
mod access;
mod blocks;
mod rows;
mod tables;

ghost use Rattle.std.specs.Prelude.{◌≡◌, ◌≤◌, length, drop};
ghost use Rattle.nll_spec.specs.Decode.{job, whole, decode};
ghost use Rattle.record.specs.Layout.{DecodedSays, no_offsets};

use repr::{Cursor, Refusal};
use tables::{counts, parts, verdict};

// The entry of a block's end among the points: no action has this offset.
pub const END: u16 = 65535;

// Where each part of a job lies in its record. `first` has the first point of each block; `points` has an entry for each point of the blocks:
// the offset of its action, or END for a block's end. An `Option<u16>` in place of END would double that table.
#[derive(Clone, Copy)]
pub struct Offsets {
    pub structs: [u16; 16],
    pub outlives: [u16; 16],
    pub variables: [u16; 64],
    pub blocks: [u16; 64],
    pub first: [u16; 64],
    pub points: [u16; 1024],
}

impl Offsets {
    // The offsets before anything is read: all 0.
    pub fn none() -> Offsets
        ensures { result ≡ no_offsets }
    {
        Offsets {
            structs: [0; 16],
            outlives: [0; 16],
            variables: [0; 64],
            blocks: [0; 64],
            first: [0; 64],
            points: [0; 1024],
        }
    }
}

// How many parts there are of each kind; `code` counts the points of all blocks.
#[derive(Clone, Copy)]
pub struct Head {
    pub structs: u8,
    pub regions: u8,
    pub declared: u8,
    pub variables: u8,
    pub blocks: u8,
    pub code: u16,
}

// A record that was read: its bytes, where each part of its job lies, and how many parts there are.
#[derive(Clone, Copy)]
pub struct Record<'a> {
    pub bytes: &'a [u8],
    pub layout: &'a Offsets,
    pub head: Head,
}

// What an action does, without its parts.
#[derive(Clone, Copy, PartialEq, Eq)]
pub enum ActionKind {
    Noop,
    Init,
    Borrow,
    Assign,
    Constraint,
    Use,
    Drop,
    StorageDead,
}

// The five counts.
#[derive(Clone, Copy)]
pub struct Counts {
    pub structs: u8,
    pub regions: u8,
    pub declared: u8,
    pub variables: u8,
    pub blocks: u8,
}

// The end of the blocks, with how many points and loans they have.
#[derive(Clone, Copy)]
pub struct Code {
    pub next: Cursor,
    pub points: usize,
    pub loans: usize,
}

// What follows the record's length.
fn job(s: &[u8], layout: &mut Offsets) -> Result<Head, Refusal>
    requires { length s.now ≤ 65535 }
    ensures { DecodedSays (whole (job (drop 3 s.now))) s.now layout.new result }
{
    let (n, c) = counts(Cursor { at: 3 }, s)?;
    let code = parts(n, c, s, layout)?;
    verdict(n, s.len(), code)
}

// The refusal of a record, from `Refusal::Version` to `Refusal::Size`, or the head of its job, with where each part lies. A record that is refused leaves anything in `layout`.
pub fn read(s: &[u8], layout: &mut Offsets) -> Result<Head, Refusal>
    ensures { DecodedSays (decode s.now) s.now layout.new result }
{
    if s.len() < 1 {
        return Err(Refusal::Version);
    }
    if s[0] != 1 {
        return Err(Refusal::Version);
    }
    if s.len() < 3 {
        return Err(Refusal::Length);
    }
    let n = usize::from(s[1]) * 256 + usize::from(s[2]);
    if 16384 < n {
        return Err(Refusal::Length);
    }
    if n != s.len() - 3 {
        return Err(Refusal::Length);
    }
    job(s, layout)
}
