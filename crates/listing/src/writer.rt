// Lines of words and decimal numbers, put into a text one after the other.
ghost use Rattle.std.specs.Prelude.{◌≡◌, [], ◌∷◌, ◌++◌, suc, ◌+◌, ◌*◌, ◌≤◌, length};
ghost use Rattle.nll_spec.specs.Lists.{gather};
ghost use Rattle.nll_spec.specs.Listing.{digits_of, spaced, line};
ghost use Rattle.buffer.specs.Appending.{Appends};

use buffer::Buffer;

// A part of a listing.
pub type Text = Buffer<4096>;

// The one line of a refusal.
pub fn refused(number: u8) -> Text
    ensures { result ≡ line "refused" (number ∷ []) }
{
    let mut text = Buffer::new();
    line(&mut text, b"refused", &[u16::from(number)]);
    text
}

// A number in decimal.
pub fn number(text: &mut Text, n: u16)
    requires { length text.old + length (digits_of (suc n) n) ≤ 4096 }
    ensures { Appends (digits_of (suc n) n) text.old text.new }
{
    if n >= 10 {
        number(text, n / 10);
    }
    text.push(b'0' + (n % 10) as u8);
}

// A space and a number in decimal.
pub fn spaced(text: &mut Text, n: u16)
    requires { length text.old + 6 ≤ 4096 }
    ensures { Appends (spaced n) text.old text.new }
{
    text.push(b' ');
    number(text, n);
}

// A line: a word and numbers.
pub fn line(text: &mut Text, word: &[u8], numbers: &[u16])
    requires { length text.old + length word.now + 6 * length numbers.now + 1 ≤ 4096 }
    ensures { Appends (word.now ++ gather spaced numbers.now ++ (10 ∷ [])) text.old text.new }
{
    text.put(word);
    for n in numbers {
        spaced(text, *n);
    }
    text.push(b'\n');
}
