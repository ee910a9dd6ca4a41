//! Runs the compiler's passes over a text, again and again in one process, for the scripts of bench/ that time them:
//! `bench STEP FILE TIMES [LTL]`.
//!
//! `compile` compiles the text of FILE TIMES times, from reading it to its image, and prints how many words its code has. Each
//! of the remaining steps is listed in `passes`, and prints how many nodes the RTL of the text's first function has; LTL is the
//! file that `judge` reads. All print `refused` if there is no result. The scripts use `cclib` itself for whatever it can show.
#![tactic(auto)]

mod passes;

use passes::{Step, again, compiled};
use std::alloc::Global;
use std::env::{self, Args};
use std::{fs, io};

fn main(rt: HostRuntime) -> io::Result<()> {
    let mut words = env::args(&rt)?;
    drop(words.next());
    let (step, file, times) = (words.next(), words.next(), next_number(&mut words));
    let (Some(step), Some(file), Some(times)) = (step, file, times) else {
        return println!(rt; "usage: bench STEP FILE TIMES [LTL]");
    };
    let text = fs::read(&rt, file.as_str())?;
    let ltl = match words.next() {
        Some(file) => fs::read(&rt, file.as_str())?,
        None => Vec::new(rt.alloc()),
    };
    match done(
        rt.alloc(),
        step.as_str(),
        text.as_slice(),
        ltl.as_slice(),
        times,
    ) {
        Some(count) => println!(rt; "{count}"),
        None => println!(rt; "refused"),
    }
}

fn next_number(words: &mut Args) -> Option<u32> {
    words.next()?.as_str().parse().ok()
}

// What the last turn of the step counted, or None if there is no such step or something is refused.
fn done(alloc: Global, step: &str, text: &[u8], ltl: &[u8], times: u32) -> Option<usize> {
    if step == "compile" {
        return compiled(alloc, text, times);
    }
    again(alloc, text, Step::named(step)?, ltl, times)
}
