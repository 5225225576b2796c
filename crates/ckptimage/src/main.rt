//! `ckptimage COMMAND`: backup streams on standard input are looked at, applied, or merged.
#![tactic(auto)]

use ck_image::image_top;
use ck_io::{StdSink, StdSource, write_all};
use ck_report::Status;
use std::io::ErrorKind;
use std::process::ExitCode;
use std::{env, io};

const HELP: &[u8] = b"usage: ckptimage COMMAND

verify  reads one stream, and says what it is
apply   reads a full stream and changed ones behind it, and prints the full stream that results
merge   reads changed streams, each of which begins where the one before it ends, and prints the one
        that has the changes of all

The streams are on standard input.
";

const VERSION: &[u8] = b"ckptimage 0.1\n";

fn exit_status(status: &Status) -> u8 {
    match status {
        Status::Done => 0,
        Status::Refused(_) => 1,
        Status::Usage => 2,
        Status::BadScript(_) => 3,
        Status::NotOpened(_) => 4,
        Status::DeviceFault => 5,
        Status::SourceFault => 6,
        Status::SinkFault => 7,
        Status::NoMemory => 8,
    }
}

/// The words behind the program's name.
fn words_of(rt: &HostRuntime) -> io::Result<Vec<String>> {
    let mut words = Vec::new(rt.alloc());
    for word in env::args(rt)?.skip(1) {
        words.push(word)?;
    }
    Ok(words)
}

fn is_only(words: &[String], text: &str) -> bool {
    match words {
        [word] => word.as_str() == text,
        _ => false,
    }
}

fn print(rt: &HostRuntime, text: &[u8]) -> u8 {
    match write_all(&mut StdSink::new(io::writer(rt)), text) {
        Ok(()) => 0,
        Err(_) => 7,
    }
}

fn run(rt: &HostRuntime, words: &[String]) -> u8 {
    let errors = rt.stderr();
    let mut source = StdSource::new(rt.stdin());
    let mut out = StdSink::new(io::writer(rt));
    let mut err = StdSink::new(io::writer(&errors));
    let status = image_top(rt.alloc(), words, &mut source, &mut out, &mut err);
    exit_status(&status)
}

fn main(rt: HostRuntime) -> ExitCode {
    let words = match words_of(&rt) {
        Ok(words) => words,
        // A word that isn't UTF-8 matches no pattern, as no words at all don't.
        Err(error) if error.kind() == ErrorKind::InvalidData => Vec::new(rt.alloc()),
        Err(_) => return ExitCode::from(8),
    };
    if is_only(&words, "--help") {
        return ExitCode::from(print(&rt, HELP));
    }
    if is_only(&words, "--version") {
        return ExitCode::from(print(&rt, VERSION));
    }
    ExitCode::from(run(&rt, &words))
}
