// gmc: does the commands of a journal, one to a line, and prints what each is answered.
#![tactic(auto)]

mod command;
mod doing;
mod help;
mod malformed;
mod outcome;
mod sheet_bytes;
mod words;

use crate::doing::do_command;
use crate::malformed::{Malformed, MalformedLine, Quoted};
use crate::outcome::Undone;
use crate::words::Words;
use anyhow::anyhow;
use engine::engine::Engine;
use std::fs::File;
use std::io::{BufRead, BufReader, Read};
use std::process::ExitCode;
use std::str::from_utf8;
use std::{env, io};

// Does one line of the journal and prints its outcome.
fn do_line(
    rt: &HostRuntime,
    engine: &mut Engine,
    number: usize,
    bytes: &[u8],
) -> io::Result<Result<(), MalformedLine>> {
    let Ok(text) = from_utf8(bytes) else {
        println!(rt; "{number} malformed {}", Malformed::NotText)?;
        return Ok(Err(MalformedLine));
    };
    let mut words = text.split_whitespace();
    let Some(name) = words.next() else {
        return Ok(Ok(()));
    };
    if name.starts_with('#') {
        return Ok(Ok(()));
    }
    match do_command(rt, engine, name, Words::new(words)) {
        Ok(figures) => println!(rt; "{number} {name} {figures}")?,
        Err(Undone::Malformed(malformed)) => {
            println!(rt; "{number} malformed {malformed}")?;
            return Ok(Err(MalformedLine));
        }
        Err(refused) => println!(rt; "{number} {name} {refused}")?,
    }
    Ok(Ok(()))
}

// Does the journal's lines in turn, those behind a malformed one too.
fn do_journal<R: Read + Drop>(rt: &HostRuntime, journal: R) -> anyhow::Result<()> {
    let mut engine = Engine::new();
    let mut form = Ok(());
    let lines = BufReader::new(rt.alloc(), journal)?.split(rt.alloc(), b'\n');
    for (index, line) in lines.enumerate() {
        let number = index.saturating_add(1);
        form = form.and(do_line(rt, &mut engine, number, line?.as_slice())?);
    }
    Ok(form?)
}

fn do_file(rt: &HostRuntime, path: &str) -> anyhow::Result<()> {
    let file = File::open(rt, path).map_err(|error| anyhow!(
        "cannot read journal {}: {error}",
        Quoted(path)
    ))?;
    do_journal(rt, file)
}

// The journal is the file that the first argument names, or else standard input.
fn run(rt: &HostRuntime) -> anyhow::Result<()> {
    match env::args(rt)?.nth(1) {
        None => do_journal(rt, rt.stdin()),
        Some(arg) if arg.as_str() == "--help" => Ok(help::print(rt)?),
        Some(arg) => do_file(rt, arg.as_str()),
    }
}

fn main(rt: HostRuntime) -> ExitCode {
    match run(&rt) {
        Ok(()) => ExitCode::SUCCESS,
        Err(error) => {
            let _ = eprintln!(rt; "gmc: {error}");
            ExitCode::FAILURE
        }
    }
}
