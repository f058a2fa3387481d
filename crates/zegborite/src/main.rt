// Reads a batch from a file or standard input, and prints its box and the ranges of its polynomials.
#![tactic(auto)]

mod failure; // why a batch gets no answer
mod report; // what is printed

use batch::{Desk, Fault, Statement, Word, read_statement, words_of};
use failure::Failure;
use report::{BoxReport, PolynomialReport};
use std::alloc::Global;
use std::process::ExitCode;
use std::{env, fs, io};

// Lines after which progress is told.
const LONG: usize = 1000;

// Answers whether the words of a line close a polynomial, whose range is to be printed.
fn take_words<'a>(heap: Global, desk: &mut Desk, words: &[Word<'a>]) -> Result<bool, Fault<'a>> {
    let statement = read_statement(words)?;
    desk.take(heap, statement)?;
    Ok(matches!(statement, Statement::Range))
}

// All that is to be printed: nothing is printed half.
fn answer(rt: &HostRuntime, text: &str) -> Result<String, Failure> {
    let heap = rt.alloc();
    let mut desk = Desk::new(heap);
    let mut ranges = String::new(heap);
    let mut closed: usize = 0;
    for (n, line) in text.lines().enumerate() {
        let number = n.saturating_add(1);
        let words = words_of(heap, line)?;
        // By its arms: `map_err` and `?` would move a `Failure`, which is large, for every line.
        match take_words(heap, &mut desk, words.as_slice()) {
            Ok(false) => {}
            Ok(true) => {
                closed = closed.saturating_add(1);
                let report = PolynomialReport {
                    number: closed,
                    desk: &desk,
                };
                write!(ranges, "{report}")?;
            }
            Err(fault) => return Err(Failure::of_line(heap, number, fault)),
        }
        if number % LONG == 0 {
            eprintln!(rt; "zegborite: {number} lines worked")?;
        }
    }
    // in front of the ranges, so that these are not held twice
    let report = BoxReport { desk: &desk };
    ranges.insert_str(0, format!(in heap; "{report}")?.as_str())?;
    Ok(ranges)
}

// The text of the file that the first argument names, else of standard input.
fn input_text(rt: &HostRuntime) -> anyhow::Result<String> {
    let mut args = env::args(rt)?;
    let _ = args.next();
    match args.next() {
        Some(path) => Ok(fs::read_to_string(rt, path.as_str())?),
        None => Ok(io::read_to_string(rt.alloc(), rt.stdin())?),
    }
}

fn run(rt: &HostRuntime) -> Result<(), Failure> {
    let text = input_text(rt).map_err(Failure::Unread)?;
    let out = answer(rt, text.as_str())?;
    rt.print(out.as_str())?;
    Ok(())
}

// In one line. Want of memory, and output that cannot be written, are not told.
fn tell(rt: &HostRuntime, failure: &Failure) -> io::Result<()> {
    match failure {
        Failure::Unread(_) | Failure::Line(..) => eprintln!(rt; "zegborite: {failure}"),
        Failure::Untold => Ok(()),
    }
}

fn main(rt: HostRuntime) -> ExitCode {
    match run(&rt) {
        Ok(()) => ExitCode::SUCCESS,
        Err(failure) => {
            let _ = tell(&rt, &failure);
            ExitCode::FAILURE
        }
    }
}
