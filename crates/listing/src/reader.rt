// Hexadecimal in, in pieces of any length.
ghost use Rattle.std.specs.Prelude.{◌≡◌, ◌<◌, List, [], ◌∷◌, ℕ, IfSome};
ghost use Rattle.nll_spec.specs.Listing.{is_skipped, digit};
ghost use Rattle.listing.specs.Digits.{value_of, waiting};

use buffer::Buffer;

// How many bytes of a record are kept: one more than the longest record has.
pub const ROOM: usize = 16388;

// The digits that were read so far: pairs, pairs and one digit more, or other text as well.
#[derive(Clone, Copy)]
pub enum Digits {
    Paired,
    Half(u8),
    Other,
}

// A text that was read so far: its digits, and the first bytes of its record.
#[derive(Clone, Copy)]
pub struct Hex {
    digits: Digits,
    kept: Buffer<ROOM>,
    ghost digit: { waiting digits < 16 },
}

impl Hex {
    ghost use Rattle.listing.specs.Reading.{hex_record, Kept, Reads, Feeds};

    // No text.
    pub fn new() -> Hex
        ensures { Reads [] result }
    {
        Hex {
            digits: Digits::Paired,
            kept: Buffer::new(),
        }
    }

    // Keeps a byte where there is room.
    fn keep(&mut self, byte: u8)
        ensures { Kept byte self.old self.new }
    {
        if self.kept.room() > 0 {
            self.kept.push(byte);
        }
    }

    fn feed_byte(&mut self, c: u8)
        ensures { Feeds (c ∷ []) self.old self.new }
    {
        if is_skipped(c) {
            return;
        }
        let Some(low) = digit(c) else {
            self.digits = Digits::Other;
            return;
        };
        match self.digits {
            Digits::Paired => self.digits = Digits::Half(low),
            Digits::Half(high) => {
                self.keep(high * 16 + low);
                self.digits = Digits::Paired;
            }
            Digits::Other => {}
        }
    }

    // A piece more of the text.
    pub fn feed(&mut self, piece: &[u8])
        ensures { Feeds piece.now self.old self.new }
    {
        for c in piece {
            self.feed_byte(*c);
        }
    }

    // The record of the whole text, as far as it is kept.
    pub fn finish(&self) -> &[u8]
        ensures { (text : List ℕ) → Reads text self.now → result.now ≡ hex_record text }
    {
        match self.digits {
            Digits::Paired => self.kept.as_bytes(),
            Digits::Half(_) | Digits::Other => &[],
        }
    }
}

fn is_skipped(c: u8) -> bool
    ensures { result ≡ is_skipped c }
{
    matches!(c, b' ' | b'\n' | b'\r')
}

// The value of a digit.
fn digit(c: u8) -> Option<u8>
    ensures value { value_of result ≡ digit c }
    ensures small { IfSome result (λ d. d < 16) }
{
    match c {
        b'0'..=b'9' => Some(c - b'0'),
        b'A'..=b'F' => Some(c - b'A' + 10),
        b'a'..=b'f' => Some(c - b'a' + 10),
        _ => None,
    }
}
