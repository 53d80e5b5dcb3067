#![tactic(auto)]
// A view of a set that holds the lent words, and thin functions over it, whose work is bit_set's. `some_set` reads the words themselves.
// `is_set`, `some_set` and `insert_bits_from_slice` take plain slices.
// No function requires anything: a number past the words is in no set, a run past the words changes nothing, and of such a run `some_set` says yes.
ghost use Rattle.std.specs.Prelude.{◌≡◌, ◌+◌, ◌*◌};
ghost use Rattle.nll_spec.specs.Output.{word_bits};
ghost use Rattle.bit_set.specs.Bits.{has, joined, grows};
ghost use Rattle.bit_slice.specs.Union.{JoinsAll};
ghost use Rattle.bit_slice.specs.Some.{SomeSet};

#[derive(Clone, Copy)]
pub struct BitSlice<'a> {
    pub words: &'a [u32],
}

// The view of all of the words.
pub fn as_slice<'a>(words: &'a [u32]) -> BitSlice<'a>
    ensures { result.words ≡ words.entry }
{
    BitSlice { words }
}

impl<'a> BitSlice<'a> {
    // Whether a number is in the set.
    pub fn get(self, index: usize) -> bool
        ensures { result ≡ has self.entry.words.now index }
    {
        bit_set::test(self.words, 0, index)
    }
}

// Puts the numbers of a view into the run that starts at word start, and says whether that changed it.
pub fn set_from<'w, 'a>(words: &'w mut [u32], start: usize, bits: BitSlice<'a>) -> bool
    ensures { JoinsAll words.old start bits.entry.words.now words.new result }
{
    bit_set::union_from(words, start, bits.words, 0, bits.words.len())
}

// Whether bit is in the set that starts at word start.
pub fn is_set(words: &[u32], start: usize, bit: usize) -> bool
    ensures { result ≡ has words.now (word_bits * start + bit) }
{
    match words.get(start..) {
        Some(run) => as_slice(run).get(bit),
        None => false,
    }
}

// Whether one of the n words from start on has a number, or lies past the words.
pub fn some_set(words: &[u32], start: usize, n: usize) -> bool
    ensures { SomeSet words.now start n result }
{
    !bit_set::run_fits(words.len(), start, n) || words[start..start + n].iter().any(|w| *w != 0)
}

// Puts the numbers of the run of n words from src in another slice into the run from dst, and says whether that changed it.
pub fn insert_bits_from_slice(
    words: &mut [u32],
    dst: usize,
    from: &[u32],
    src: usize,
    n: usize,
) -> bool
    ensures { (words.new ≡ joined words.old dst from.now src n) × (result ≡ grows words.old dst from.now src n) }
{
    if !bit_set::run_fits(from.len(), src, n) {
        return false;
    }
    set_from(words, dst, as_slice(&from[src..src + n]))
}
