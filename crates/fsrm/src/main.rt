//! The program: does what the words on its command line ask for, over the process's streams and the store in its folder.
#![tactic(auto)]

ghost use Rattle.std.specs.Prelude.{◌≡◌, ◌<◌};
ghost use Rattle.std.specs.Process.{exit_status as code_of};
ghost use Rattle.fsrm.specs.Exit.{exit_status, exit_message, part_number};

use fsrm_model::{Steps, Weightless};
use fsrm_modes::{Status, run};
use fsrm_outside::{Part, RealOutside};
use program_words::{help_text, version_text};
use std::alloc::Global;
use std::env;
use std::fs::File;
use std::io::ErrorKind;
use std::marker::Brand;
use std::process::ExitCode;
use std::sync::ledger::{Blank, Ledger};

// A text that is asked for alone, in place of a mode.
#[derive(Clone, Copy)]
enum TextAsked {
    Help,
    Version,
}

// The words after the program's name. A word that isn't text is not understood.
fn words_given(rt: &HostRuntime, alloc: Global) -> Result<Vec<String>, Status> {
    let args = match env::args(rt) {
        Ok(args) => args,
        Err(error) if error.kind() == ErrorKind::OutOfMemory => return Err(Status::NoMemory),
        Err(_) => return Err(Status::Usage),
    };
    let mut words = Vec::new(alloc);
    for word in args.skip(1) {
        if words.push(word).is_err() {
            return Err(Status::NoMemory);
        }
    }
    Ok(words)
}

fn text_asked(words: &[String]) -> Option<TextAsked> {
    let [word] = words else {
        return None;
    };
    match word.as_str() {
        "--help" | "-h" => Some(TextAsked::Help),
        "--version" | "-V" => Some(TextAsked::Version),
        _ => None,
    }
}

// Writes the text on standard output.
fn show_text(rt: &HostRuntime, alloc: Global, asked: TextAsked) -> Status {
    let text = match asked {
        TextAsked::Help => help_text(alloc),
        TextAsked::Version => version_text(alloc),
    };
    let Ok(text) = text else {
        return Status::NoMemory;
    };
    match print!(rt; "{text}") {
        Ok(()) => Status::Done,
        Err(_) => Status::WriteFault,
    }
}

// Opens the current folder three times. The system gives the number of a standard stream that is closed to the next file
// that is opened; were that one of the store, replies would be written over it. A folder can be neither read nor written
// so, and the stream fails as a closed one does.
fn stand_ins(rt: &HostRuntime) -> Option<(File, File, File)> {
    let first = File::open(rt, ".").ok()?;
    let second = File::open(rt, ".").ok()?;
    let third = File::open(rt, ".").ok()?;
    Some((first, second, third))
}

// Runs, and counts the looks in a ledger that takes no bytes.
fn run_counted<B: Ledger>(rt: &HostRuntime, alloc: Global, blank: Blank) -> Status
    requires name { blank.name ≡ B.name }
    requires parts { blank.parts ≡ B.parts }
    requires some { 0 < B.parts }
{
    let words = match words_given(rt, alloc) {
        Ok(words) => words,
        Err(status) => return status,
    };
    if let Some(asked) = text_asked(words.as_slice()) {
        return show_text(rt, alloc, asked);
    }
    let Some(_open) = stand_ins(rt) else {
        return Status::DiskFault;
    };
    let Ok(mut outside) = RealOutside::new(rt, alloc) else {
        return Status::NoMemory;
    };
    let mut steps = Steps::new(rt, Weightless::<B>::of(blank));
    run(alloc, words.as_slice(), &mut outside, &mut steps)
}

// The exit status, and what is said of it on standard error.
fn exit_of(status: Status) -> (ExitCode, &'static str)
    ensures status { code_of result.0 ≡ exit_status status }
    ensures message { result.1.now ≡ exit_message status }
{
    let (code, message) = match status {
        Status::Done => (0, ""),
        Status::Usage => (2, "fsrm: words not understood"),
        Status::ReadFault => (3, "fsrm: input failed"),
        Status::WriteFault => (4, "fsrm: output failed"),
        Status::DiskFault => (5, "fsrm: store device failed"),
        Status::TooLong => (6, "fsrm: script too long"),
        Status::Damaged { .. } => (7, "fsrm: store damaged"),
        Status::NoMemory => (8, "fsrm: out of memory"),
        Status::NoStore => (9, "fsrm: no store here"),
        Status::AlreadyStore => (10, "fsrm: a store is here already"),
    };
    (ExitCode::from(code), message)
}

fn part_number(part: Part) -> u8
    ensures { result ≡ part_number part }
{
    match part {
        Part::Zero => 0,
        Part::One => 1,
    }
}

fn main(rt: HostRuntime) -> ExitCode {
    let status = run_counted::<Brand>(&rt, rt.alloc(), Blank::new(1));
    let (code, text) = exit_of(status);
    // If standard error is closed too, the exit status tells it alone.
    let _ = match status {
        Status::Done => Ok(()),
        Status::Damaged { part, place } => {
            let part = part_number(part);
            eprintln!(rt; "{text} at part {part} place {place}")
        }
        _ => eprintln!(rt; "{text}"),
    };
    code
}
