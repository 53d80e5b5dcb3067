#![tactic(auto)]
// Runs records through the call and prints how many answers are as recorded: the original Rust's for accepted records, the model's for refused ones, and
// boundary cases.
mod compare;
mod file;
mod room;
mod run;
mod tally;

use room::{FileBytes, read};
use run::cases;
use std::fs::File;
use std::io;
use std::io::Stdout;
use tally::{Count, replay};

// Prints a file's name and how many of its entries agree, or that it is not a whole file: entries and nothing else.
fn report(output: Stdout, name: &str, counted: Count) -> io::Result<()> {
    let Some(agree) = counted.agree else {
        return println!(output; "{name}: not a whole file");
    };
    let entries = counted.entries;
    println!(output; "{name} {agree} of {entries} agree")
}

// Reads the file of recorded answers: nothing where it cannot be opened or may go on past the room.
fn read_answers(rt: HostRuntime, file: &mut FileBytes) -> io::Result<()> {
    let path = "answers.bin";
    match File::open(&rt, path) {
        Ok(answers) => {
            read(file, &mut &answers);
            if file.is_full() {
                file.clear();
            }
            Ok(())
        }
        Err(e) => eprintln!(rt; "{path}: {e}"),
    }
}

fn main(rt: HostRuntime) -> io::Result<()> {
    let mut file = FileBytes::new();
    read_answers(rt, &mut file)?;
    report(rt.stdout(), "recorded", replay(file.as_bytes()))?;
    cases(&mut file);
    report(rt.stdout(), "run", replay(file.as_bytes()))
}
