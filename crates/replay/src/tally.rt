// How many entries of a file agree with the call.
ghost use Rattle.std.specs.Prelude.{◌≤◌, length};
ghost use Rattle.replay.specs.File.{Replayed};

use super::compare::agree;
use super::file::{entry_at, two_at};

// How many entries a file says that it has, and how many of them agree, if it is those entries and nothing else.
#[derive(Clone, Copy)]
pub struct Count {
    pub entries: usize,
    pub agree: Option<usize>,
}

// Replays a file.
pub fn replay(s: &[u8]) -> Count
    requires { length s.now ≤ 1048576 }
    ensures { Replayed s.now result }
{
    let entries = two_at(s, 0);
    let mut good = 0;
    let mut at = 2;
    for _ in 0..entries {
        let e = entry_at(s, at);
        if e.end > s.len() {
            return Count {
                entries,
                agree: None,
            };
        }
        good += usize::from(agree(s, e));
        at = e.end;
    }
    if at != s.len() {
        return Count {
            entries,
            agree: None,
        };
    }
    Count {
        entries,
        agree: Some(good),
    }
}
