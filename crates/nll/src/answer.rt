// The answer to a job.
ghost use Rattle.std.specs.Prelude.{◌≡◌, true, ◌≤◌, length};
ghost use Rattle.nll.specs.Steps.{room_for, Writes};

use super::bytes::{marks, verdicts};
use super::words::solve;
use graph::tables::FuncGraph;
use record::Record;

// Writes the answer to a job of the record: the words, then the bytes.
pub fn write(input: &Record<'_>, words: &mut [u32], bytes: &mut [u8])
    requires { (input.now.head.declared ≤ 128) × (room_for input.now.head (length words.old) (length bytes.old) ≡ true) }
    ensures { Writes input.now words.old bytes.old words.new bytes.new }
{
    let mut graph = FuncGraph {
        input: *input,
        first: [0; 1025],
        succ: [0; 1536],
        walked: [0; 32],
    };
    graph.fill();
    let mut grown = [0; 128];
    solve(&graph, words, &mut grown);
    verdicts(&graph, words, bytes);
    marks(input.head, &grown, bytes);
}
