#![tactic(auto)]
// The analysis of a record: one call, from the record's bytes to the words and bytes of its answer.
mod answer;
mod bytes;
mod room;
mod words;

ghost use Rattle.std.specs.Prelude.{◌≡◌};
ghost use Rattle.nll_spec.specs.Output as output;
ghost use Rattle.well_formed.specs.Tests.{number_in};
ghost use Rattle.nll.specs.Analysis.{AnalyseSays, points_of};

use answer::write;
use record::{Offsets, Record};
use repr::Refusal;
use room::{has_room, shape_of};
use well_formed::judge;

// Analyses the record `s`. For an accepted job the words get the regions' sets, and the bytes the verdicts and which declared regions are grown; a
// refusal changes neither.
pub fn analyse(s: &[u8], words: &mut [u32], bytes: &mut [u8]) -> Result<(), Refusal>
    ensures { AnalyseSays s.now words.old bytes.old (number_in result) words.new bytes.new }
{
    let mut layout = Offsets::none();
    let head = judge(s, &mut layout)?;
    if !has_room(head, words.len(), bytes.len()) {
        return Err(Refusal::Room);
    }
    let input = Record {
        bytes: s,
        layout: &layout,
        head,
    };
    write(&input, words, bytes);
    Ok(())
}

// The same by number: 0, or a refusal's.
pub fn nll_analyse(input: &[u8], words: &mut [u32], bytes: &mut [u8]) -> u8
    ensures { AnalyseSays input.now words.old bytes.old result words.new bytes.new }
{
    match analyse(input, words, bytes) {
        Ok(()) => 0,
        Err(refusal) => u8::from(refusal),
    }
}

// How many points the job of the record `input` has; 0 of a record that refusals 1 to 9 refuse.
pub fn nll_points(input: &[u8]) -> u16
    ensures { result ≡ points_of (output.judge input.now) }
{
    let mut layout = Offsets::none();
    match judge(input, &mut layout) {
        Ok(head) => shape_of(head).points as u16,
        Err(_) => 0,
    }
}
