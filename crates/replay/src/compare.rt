// Whether the call gives an entry's answer.
ghost use Rattle.std.specs.Prelude.{◌≡◌, ◌≤◌, ◌↔◌, length, slice_index, EachIndex, IsTrue};
ghost use Rattle.nll_spec.specs.Cases.{same_list};
ghost use Rattle.nll_spec.specs.Output.{overwrite};
ghost use Rattle.replay.specs.File.{word_at, words_at, agrees, EntryIn};

use super::file::{Entry, four_at};
use entries::get_or;

// What each word and each byte holds before the call.
const WORD: u32 = 0xa5a5_a5a5;

const BYTE: u8 = 0xa5;

// Whether the words are those from a position of the file on.
fn are_words_at(s: &[u8], at: usize, words: &[u32]) -> bool
    requires { (at ≤ 1048576) × (length words.now ≤ 4112) }
    ensures { IsTrue result ↔ EachIndex words.now (λ k. slice_index words.now k ≡ word_at s.now at k) }
{
    words
        .iter()
        .enumerate()
        .all(|(i, word)| *word == four_at(s, at + 4 * i))
}

// Whether the first words are those that the file has, and the others are as before.
fn same_words(s: &[u8], at: usize, count: usize, words: &[u32; 4112], before: &[u32; 4112]) -> bool
    requires { at ≤ 1048576 }
    ensures { result ≡ same_list words.now (overwrite (words_at s.now at count) before.now) }
{
    if count > words.len() {
        return false;
    }
    let (written, rest) = words.split_at(count);
    are_words_at(s, at, written) && rest == before.split_at(count).1
}

// Whether the first bytes are these, and the others are as before.
fn same_bytes(due: &[u8], bytes: &[u8; 2080], before: &[u8; 2080]) -> bool
    ensures { result ≡ same_list bytes.now (overwrite due.now before.now) }
{
    if due.len() > bytes.len() {
        return false;
    }
    let (written, rest) = bytes.split_at(due.len());
    written == due && rest == before.split_at(due.len()).1
}

// Whether the call, on buffers of WORD and BYTE, returns the entry's number and leaves its words and bytes, and after them what was there.
pub fn agree(s: &[u8], e: Entry) -> bool
    requires { EntryIn s.now e }
    ensures { result ≡ agrees s.now e }
{
    let words_before = [WORD; 4112];
    let bytes_before = [BYTE; 2080];
    let mut words = words_before;
    let mut bytes = bytes_before;
    let number = nll::nll_analyse(&s[e.input..e.number], &mut words, &mut bytes);
    if number != get_or(s, e.number, 0) {
        return false;
    }
    same_words(s, e.words, e.count, &words, &words_before)
        && same_bytes(&s[e.bytes..e.end], &bytes, &bytes_before)
}
