// Standard input and output.
ghost use Rattle.std.specs.Prelude.{◌≡◌, ◌<◌, ◌≤◌, [], false, length, IfSome};

use crate::fault::Failed;
use crate::sink::Sink;
use crate::source::Source;
use std::io::{ErrorKind, Read, Write};
use std::marker::Model;

/// Gives what a reader of the system gives, such as standard input. Nobody knows its bytes before it gives them.
#[derive(Drop)]
pub struct StdSource<R> {
    reader: R,
    faults: u64,
}

impl<R> Model for StdSource<R> {
    ghost use Rattle.std.specs.Prelude.{ℕ};

    ghost Value = { ℕ };

    ghost view = { λ s. s.faults };
}

impl<R: Read> StdSource<R> {
    pub fn new(reader: R) -> StdSource<R>
        ensures no_faults { result ≡ 0 }
    {
        StdSource { reader, faults: 0 }
    }
}

impl<R: Read> Source for StdSource<R> {
    ghost means = { λ faults. record { tells = false; left = []; faults = faults } };

    fn read(&mut self, into: &mut [u8]) -> Result<usize, Failed> {
        let Some(count) = read_once(&mut self.reader, into) else {
            self.faults = self.faults.saturating_add(1);
            return Err(Failed);
        };
        Ok(count)
    }
}

// A read that a signal interrupts is tried again.
fn read_once<R: Read>(reader: &mut R, into: &mut [u8]) -> Option<usize>
    ensures { IfSome result (λ count. count ≤ length into.old) }
{
    for _ in 0..u64::MAX {
        match reader.read(into) {
            Ok(count) => return Some(count),
            Err(error) => {
                if error.kind() != ErrorKind::Interrupted {
                    return None;
                }
            }
        }
    }
    None
}

/// Passes bytes to a writer of the system, such as standard output or standard error. A writer that takes nothing is at
/// fault.
#[derive(Drop)]
pub struct StdSink<W> {
    writer: W,
    faults: u64,
}

impl<W> Model for StdSink<W> {
    ghost use Rattle.std.specs.Prelude.{ℕ};

    ghost Value = { ℕ };

    ghost view = { λ s. s.faults };
}

impl<W: Write> StdSink<W> {
    pub fn new(writer: W) -> StdSink<W>
        ensures no_faults { result ≡ 0 }
    {
        StdSink { writer, faults: 0 }
    }
}

impl<W: Write> Sink for StdSink<W> {
    ghost means = { λ faults. record { tells = false; holds = []; faults = faults } };

    fn write(&mut self, from: &[u8]) -> Result<usize, Failed> {
        let Some(count) = write_once(&mut self.writer, from) else {
            self.faults = self.faults.saturating_add(1);
            return Err(Failed);
        };
        Ok(count)
    }
}

// A write that a signal interrupts is tried again.
fn write_once<W: Write>(writer: &mut W, from: &[u8]) -> Option<usize>
    ensures within { IfSome result (λ count. count ≤ length from.now) }
    ensures progress { IfSome result (λ count. 0 < length from.now → 0 < count) }
{
    for _ in 0..u64::MAX {
        match writer.write(from) {
            Ok(count) => return (count > 0 || from.is_empty()).then_some(count),
            Err(error) => {
                if error.kind() != ErrorKind::Interrupted {
                    return None;
                }
            }
        }
    }
    None
}
