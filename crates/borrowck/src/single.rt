// One access, by what is done to a path.
ghost use Rattle.std.specs.Prelude.{◌≡◌};
ghost use Rattle.borrowck.specs.Accesses.{reading, writing, borrowing, moving, dying, lending};

use super::{Access, Depth, FaultKind, Mode};
use repr::{BorrowKind, Cursor, Path, Variable};

pub fn read(path: Path) -> Access
    ensures { result ≡ reading path }
{
    Access {
        depth: Depth::Deep,
        mode: Mode::Read,
        path,
        fault: FaultKind::Read,
    }
}

// A destination is overwritten, without being read.
pub fn shallow_write(path: Path) -> Access
    ensures { result ≡ writing path }
{
    Access {
        depth: Depth::Shallow,
        mode: Mode::Write,
        path,
        fault: FaultKind::Write,
    }
}

// A Mut borrow may read and write all that its source leads to.
fn mut_borrow(path: Path) -> Access
    ensures { result ≡ borrowing path }
{
    Access {
        depth: Depth::Deep,
        mode: Mode::Write,
        path,
        fault: FaultKind::Write,
    }
}

pub fn move_out(path: Path) -> Access
    ensures { result ≡ moving path }
{
    Access {
        depth: Depth::Deep,
        mode: Mode::Write,
        path,
        fault: FaultKind::Move,
    }
}

// A variable's storage goes.
pub fn storage_dead(v: Variable) -> Access
    ensures { result ≡ dying v }
{
    let path = Path {
        base: v,
        steps: 0,
        from: Cursor { at: 0 },
    };
    Access {
        depth: Depth::Shallow,
        mode: Mode::Write,
        path,
        fault: FaultKind::StorageDead,
    }
}

// The source of a Borrow.
pub fn source_of(kind: BorrowKind, source: Path) -> Access
    ensures { result ≡ lending kind source }
{
    match kind {
        BorrowKind::Mut => mut_borrow(source),
        BorrowKind::Shared => read(source),
    }
}
