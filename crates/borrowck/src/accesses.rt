// The accesses of an action, by operand: the destination first, then the sources.
ghost use Rattle.std.specs.Prelude.{◌≡◌, ◌≤◌};

use super::Access;
use super::single::{move_out, read, shallow_write, source_of, storage_dead};
use repr::{Action, Cursor, Path, Variable};

// So many accesses, the first `count` of the list.
#[derive(Clone, Copy)]
pub struct Accesses {
    pub list: [Access; 9],
    pub count: usize,
    ghost room: { count ≤ 9 },
}

impl Accesses {
    ghost use Rattle.std.specs.Prelude.{[], ◌∷◌};
    ghost use Rattle.borrowck.specs.Accesses.{accesses_in, WithSources, AccessesOf};

    // No access.
    fn none() -> Accesses
        ensures { (result.count ≡ 0) × (accesses_in result ≡ []) }
    {
        Accesses {
            list: [storage_dead(Variable(0)); 9],
            count: 0,
        }
    }

    // One access.
    fn one(x: Access) -> Accesses
        ensures { (result.count ≡ 1) × (accesses_in result ≡ x ∷ []) }
    {
        Accesses {
            list: [x; 9],
            count: 1,
        }
    }

    // Two accesses.
    fn two(x: Access, y: Access) -> Accesses
        ensures { (result.count ≡ 2) × (accesses_in result ≡ x ∷ y ∷ []) }
    {
        let mut list = [x; 9];
        list[1] = y;
        Accesses { list, count: 2 }
    }

    // The destination of an Init and its sources, which are so many from a place on; there are at most 8.
    fn with_sources(s: &[u8], dest: Path, from: Cursor, many: u8) -> Accesses
        ensures { WithSources s.now dest from.at many result }
    {
        let mut list = [shallow_write(dest); 9];
        let mut c = from;
        let sources = usize::from(many.min(8));
        for i in 0..sources {
            let Ok((q, next)) = c.path(s) else {
                return Accesses { list, count: i + 1 };
            };
            list[i + 1] = read(q);
            c = next;
        }
        Accesses {
            list,
            count: sources + 1,
        }
    }

    // The accesses of an action; an Init's sources stand at the cursor.
    pub fn of_action(s: &[u8], a: Action, next: Cursor) -> Accesses
        ensures { AccessesOf s.now a next result }
    {
        match a {
            Action::Init { dest, count } => Accesses::with_sources(s, dest, next, count),
            Action::Borrow {
                dest,
                kind,
                source,
                ..
            } => Accesses::two(shallow_write(dest), source_of(kind, source)),
            Action::Assign { dest, source } => Accesses::two(shallow_write(dest), read(source)),
            Action::Use(q) => Accesses::one(read(q)),
            Action::Drop(q) => Accesses::one(move_out(q)),
            Action::StorageDead(v) => Accesses::one(storage_dead(v)),
            Action::Noop | Action::Constraint { .. } => Accesses::none(),
        }
    }
}
