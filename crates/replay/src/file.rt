// The file of recorded answers: big-endian numbers, and where an entry's parts stand.
ghost use Rattle.std.specs.Prelude.{◌≡◌, ◌≤◌};
ghost use Rattle.replay.specs.File.{two, four, entry_at};

use entries::get_or;

// An entry: its record stands from `input` to `number`, where the number stands; so many words from `words` on; its bytes from `bytes` to `end`.
#[derive(Clone, Copy)]
pub struct Entry {
    pub input: usize,
    pub number: usize,
    pub words: usize,
    pub count: usize,
    pub bytes: usize,
    pub end: usize,
}

// The two-byte number at a position.
pub fn two_at(s: &[u8], at: usize) -> usize
    requires { at ≤ 4194304 }
    ensures { (result ≡ two s.now at) × (result ≤ 65535) }
{
    usize::from(u16::from_be_bytes([get_or(s, at, 0), get_or(s, at + 1, 0)]))
}

// The four-byte number at a position.
pub fn four_at(s: &[u8], at: usize) -> u32
    requires { at ≤ 4194304 }
    ensures { result ≡ four s.now at }
{
    u32::from_be_bytes([
        get_or(s, at, 0),
        get_or(s, at + 1, 0),
        get_or(s, at + 2, 0),
        get_or(s, at + 3, 0),
    ])
}

// The entry at a position.
pub fn entry_at(s: &[u8], at: usize) -> Entry
    requires { at ≤ 1048576 }
    ensures { result ≡ entry_at s.now at }
{
    let number = at + 2 + two_at(s, at);
    let words = number + 3;
    let count = two_at(s, number + 1);
    let stop = words + 4 * count;
    Entry {
        input: at + 2,
        number,
        words,
        count,
        bytes: stop + 2,
        end: stop + 2 + two_at(s, stop),
    }
}
