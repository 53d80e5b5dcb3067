// The beginning of the listing.
ghost use Rattle.nll_list.specs.Text.{Begins};

use super::Begun;
use listing::{Place, Text};

// Analyses a record. The text, and then all from the place that follows, is the listing of every text that has this record.
pub fn begin(input: &[u8], words: &mut [u32; 4096], bytes: &mut [u8; 2064]) -> Begun
    ensures { Begins input.now result words.new bytes.new }
{
    let counts = listing::count(input);
    match nll::analyse(input, words, bytes) {
        Ok(()) => Begun {
            text: Text::new(),
            counts,
            next: Some(Place::Points),
        },
        Err(refusal) => Begun {
            text: listing::refused(u8::from(refusal)),
            counts,
            next: None,
        },
    }
}
