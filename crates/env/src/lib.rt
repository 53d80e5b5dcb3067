#![tactic(auto)]
// Types of paths, and prefixes of paths.
pub mod fields;
pub mod paths;
pub mod prefixes;

use repr::{BorrowKind, RegionName};

// A step of a path, by the type that it leaves: a Ref, of a kind and of a region, or another.
#[derive(Clone, Copy)]
pub enum Step {
    Owned,
    Ref {
        kind: BorrowKind,
        region: RegionName,
    },
}

impl Step {
    ghost use Rattle.std.specs.Prelude.{◌≡◌};
    ghost use Rattle.env.specs.Steps.{kind_in};

    // The kind of the type that it leaves, by number: 1 for a Mut Ref, 2 for a Shared one, 0 for another.
    fn kind(self) -> u8
        ensures { result ≡ kind_in self }
    {
        match self {
            Step::Owned => 0,
            Step::Ref {
                kind: BorrowKind::Mut,
                ..
            } => 1,
            Step::Ref {
                kind: BorrowKind::Shared,
                ..
            } => 2,
        }
    }
}

// How many steps the shortest supporting and the shortest frozen prefix of a path have.
#[derive(Clone, Copy)]
pub struct Shortest {
    pub supporting: u8,
    pub frozen: u8,
}
