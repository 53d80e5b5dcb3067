#![tactic(auto)]
// The program `nll-list`: reads a record in hexadecimal, and prints what the analysis says of it.
// No contract says what the system reads and writes. The contracts here say the rest: `read_text` keeps the record of all pieces that were read;
// `begin`, and then each chunk that `Answer::fill` gives, are the listing of that text.
mod begin;

ghost use Rattle.std.specs.Prelude.{IfOk};
ghost use Rattle.nll_list.specs.Text.{IsRead};

use begin::begin;
use listing::{Answer, Counts, Hex, Place, Text};
use std::io;
use std::io::{Read, Write};

// What the analysis begins to say: a text, and the place that follows it, if any.
#[derive(Clone, Copy)]
pub struct Begun {
    pub text: Text,
    pub counts: Counts,
    pub next: Option<Place>,
}

// Reads to the end of the input. A proved loop has to end, and nothing says that the input does: no run uses up these turns.
fn read_text<R: Read>(input: &mut R) -> io::Result<Hex>
    ensures { IfOk result IsRead }
{
    let mut text = Hex::new();
    let mut buffer = [0; 4096];
    for _ in 0..u64::MAX {
        let n = input.read(&mut buffer)?;
        if n == 0 {
            break;
        }
        text.feed(&buffer[..n]);
    }
    Ok(text)
}

// Prints the text and all from a place on, if any, chunk by chunk, until a write fails.
fn print<W: Write>(
    output: &mut W,
    answer: &Answer,
    first: Text,
    from: Option<Place>,
) -> io::Result<()> {
    let mut text = first;
    let mut next = from;
    output.write_all(text.as_bytes())?;
    while let Some(place) = next {
        next = answer.fill(place, &mut text);
        output.write_all(text.as_bytes())?;
    }
    Ok(())
}

fn main(rt: HostRuntime) -> io::Result<()> {
    let text = read_text(&mut rt.stdin())?;
    let mut words = [0; 4096];
    let mut bytes = [0; 2064];
    let begun = begin(text.finish(), &mut words, &mut bytes);
    let answer = Answer {
        words: &words,
        bytes: &bytes,
        counts: begun.counts,
    };
    print(&mut rt.stdout(), &answer, begun.text, begun.next)
}
