// Answers vectors: each line that ends in `= ?` is written with its answer in that place, any other line as it is.
#![tactic(auto)]

mod answer; // what a call answers, and how it is written
mod calls; // which words say which call of a small function
mod fault; // why a line gets no answer
mod operands; // what calls ask of their operands
mod ranges; // a method's range of a polynomial
mod rows; // a search in a row of keys
mod words; // the words of a call, and what each says

use fault::Fault;
use std::io::{BufRead, BufReader};

fn main(rt: HostRuntime) -> anyhow::Result<()> {
    run(&rt)
}

fn run(rt: &HostRuntime) -> anyhow::Result<()> {
    for line in BufReader::new(rt.alloc(), rt.stdin())?.lines(rt.alloc()) {
        write_answered(rt, line?.as_str())?;
    }
    Ok(())
}

fn write_answered(rt: &HostRuntime, line: &str) -> anyhow::Result<()> {
    let Some(call) = line.strip_suffix(" = ?") else {
        println!(rt; "{line}")?;
        return Ok(());
    };
    match calls::answer(rt.alloc(), call) {
        Ok(answer) => println!(rt; "{call} = {answer}")?,
        Err(Fault::NoMemory) => return Err(Fault::NoMemory.into()),
        Err(fault) => println!(rt; "{call} = {fault}")?,
    }
    Ok(())
}
