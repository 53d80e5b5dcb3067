#![tactic(auto)]
// The call for C, as include/nll.h declares it.
ghost use Rattle.nll.specs.Analysis.{AnalyseSays};

// Analyses the record `input`, and answers a number: 0, or a refusal's.
#[unsafe(no_mangle)]
pub extern "C" fn nll_analyse(input: &[u8], words: &mut [u32], bytes: &mut [u8]) -> u8
    ensures { AnalyseSays input.now words.old bytes.old result words.new bytes.new }
{
    nll::nll_analyse(input, words, bytes)
}
