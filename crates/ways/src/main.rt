// The program: describes the hotel that stands on standard input.
#![tactic(auto)]

mod describe;
mod fault;
mod job;
mod line;
#[cfg(test)]
mod tests;
mod text;

use job::describe;
use std::io::{self, Read};
use std::process::ExitCode;

// The largest survey has 17,416 bytes, and the two ends have 4: one byte more shows that an input is too long.
const MOST_INPUT: u64 = 17_421;

// A refused job ends with status 1 and its line on standard output alone, so it is no `Err` of `main`, which would be
// printed on standard error.
fn main(rt: HostRuntime) -> io::Result<ExitCode> {
    let mut input = Vec::new(rt.alloc());
    rt.stdin().take(MOST_INPUT).read_to_end(&mut input)?;
    match describe(input.as_slice(), Vec::new(rt.alloc())) {
        Ok(text) => {
            rt.write_all(text.as_slice())?;
            Ok(ExitCode::SUCCESS)
        }
        Err(fault) => {
            println!(rt; "{fault}")?;
            Ok(ExitCode::FAILURE)
        }
    }
}
