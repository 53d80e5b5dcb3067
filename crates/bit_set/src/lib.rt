#![tactic(auto)]
// Sets of numbers in a lent run of words: number p of the set that starts at word s is bit p % 32 of word s + p / 32.
// The public functions require nothing: a number past the words is in no set, and a number or a run past the words changes nothing.
ghost use Rattle.std.specs.Prelude.{◌≡◌, not, ◌+◌, ◌*◌, ◌/◌, ◌%◌, ◌^◌, ◌<◌, ◌≤◌, eqb, MatchOption};
ghost use Rattle.std.specs.Int.Bits.{bit_or};
ghost use Rattle.nll_spec.specs.Output.{word_bits};
ghost use Rattle.bit_set.specs.Bits.{has, with_bit, is_new, without_bit, fits, joined, grows, joined_within, grows_within, cleared};

const BITS: usize = 32;

// The word of number p of the set that starts at word start, if it is among the first count.
fn word_of(count: usize, start: usize, p: usize) -> Option<usize>
    ensures { MatchOption result (count ≤ start + p / word_bits) (λ k. (k ≡ start + p / word_bits) × (k < count)) }
{
    let k = start.checked_add(p / BITS)?;
    (k < count).then_some(k)
}

// Whether number p has a bit in its word.
fn has_bit(word: u32, p: usize) -> bool
    ensures { result ≡ eqb (word / 2 ^ (p % word_bits) % 2) 1 }
{
    (word >> (p % BITS)) % 2 == 1
}

// Whether p is in the set that starts at word start.
pub fn test(words: &[u32], start: usize, p: usize) -> bool
    ensures { result ≡ has words.now (word_bits * start + p) }
{
    match word_of(words.len(), start, p) {
        Some(k) => has_bit(words[k], p),
        None => false,
    }
}

// Puts p into the set that starts at word start, and says whether that changed it.
pub fn add(words: &mut [u32], start: usize, p: usize) -> bool
    ensures { (words.new ≡ with_bit words.old (word_bits * start + p)) × (result ≡ is_new words.old (word_bits * start + p)) }
{
    let Some(k) = word_of(words.len(), start, p) else {
        return false;
    };
    if has_bit(words[k], p) {
        return false;
    }
    words[k] |= 1 << (p % BITS);
    true
}

// Takes p out of the set that starts at word start, and says whether that changed it.
pub fn kill(words: &mut [u32], start: usize, p: usize) -> bool
    ensures { (words.new ≡ without_bit words.old (word_bits * start + p)) × (result ≡ has words.old (word_bits * start + p)) }
{
    let Some(k) = word_of(words.len(), start, p) else {
        return false;
    };
    if !has_bit(words[k], p) {
        return false;
    }
    words[k] -= 1 << (p % BITS);
    true
}

// Whether the n words from start on are among the first count.
pub fn run_fits(count: usize, start: usize, n: usize) -> bool
    ensures { result ≡ fits count start n }
{
    start.checked_add(n).is_some_and(|end| end <= count)
}

// Puts the bits of from into a word, and says whether that changed it.
fn join(word: &mut u32, from: u32) -> bool
    ensures { (word.new ≡ bit_or word.old from) × (result ≡ not (eqb word.old (bit_or word.old from))) }
{
    let old = *word;
    *word |= from;
    *word != old
}

// Puts the numbers of the run of n words from src into the run from dst, and says whether that changed it. A run that starts below dst and reaches into
// the run from dst is not joined.
pub fn union(words: &mut [u32], dst: usize, src: usize, n: usize) -> bool
    ensures { (words.new ≡ joined_within words.old dst src n) × (result ≡ grows_within words.old dst src n) }
{
    let fit = run_fits(words.len(), dst, n) & run_fits(words.len(), src, n);
    let read_first = (dst <= src) | run_fits(dst, src, n);
    if !(fit & read_first) {
        return false;
    }
    let mut changed = false;
    for i in 0..n {
        let from = words[src + i];
        changed |= join(&mut words[dst + i], from);
    }
    changed
}

// Puts the numbers of the run of n words from src in another slice into the run from dst, and says whether that changed it.
pub fn union_from(words: &mut [u32], dst: usize, from: &[u32], src: usize, n: usize) -> bool
    ensures { (words.new ≡ joined words.old dst from.now src n) × (result ≡ grows words.old dst from.now src n) }
{
    let fit = run_fits(words.len(), dst, n) & run_fits(from.len(), src, n);
    if !fit {
        return false;
    }
    let mut changed = false;
    for (i, &other) in from[src..src + n].iter().enumerate() {
        changed |= join(&mut words[dst + i], other);
    }
    changed
}

// Empties the run of n words from start.
pub fn clear(words: &mut [u32], start: usize, n: usize)
    ensures { words.new ≡ cleared words.old start n }
{
    if run_fits(words.len(), start, n) {
        words[start..start + n].fill(0);
    }
}
