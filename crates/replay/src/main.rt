// Runs the stored vectors, which hold the Rust's answers and document 01's refusals, and says how many of them came
// out otherwise: `form.bin` through the record form, `traces.bin` through the judge.
#![tactic(auto)]

use cases::next_case;
use read::Stop;
use std::fs::File;
use std::io;
use std::rt::Files;
use tally::counted;
use trace::next_trace;

mod ask;
mod cases;
mod preview;
mod read;
mod tally;
mod trace;

// Counts the entries of a file.
fn run<R: Files + Print + Eprint, F: Fn(&mut R::File) -> Result<bool, Stop> + Drop>(
    rt: &R,
    name: &str,
    path: &str,
    next: F,
) -> io::Result<()>
    requires { F.IsAlwaysCallable next }
{
    match File::open(rt, path) {
        Ok(mut file) => {
            let tally = counted(&mut file, next);
            println!(rt; "{name}: {tally}")
        }
        Err(e) => eprintln!(rt; "{path}: {e}"),
    }
}

fn main(rt: HostRuntime) -> io::Result<()> {
    run(&rt, "form", "form.bin", next_case)?;
    run(&rt, "traces", "traces.bin", next_trace)
}
