// A source and a sink in memory, which fail at the calls that they are told.
ghost use Rattle.std.specs.Prelude.{◌≡◌, ◌<◌, ◌≤◌, ◌↔◌, ◌++◌, [], length, take, drop, min, true, IsErr, IfOk, OnOk, OnErr, Contains};
ghost use Rattle.ck_io.specs.Faults.{raised};
ghost use Rattle.ck_io.specs.Memory.{MemSourceState, MemSinkState};

use crate::fault::Failed;
use crate::sink::Sink;
use crate::source::Source;
use std::alloc::Global;
use std::marker::Model;

/// Gives the bytes of a vector.
#[derive(Debug, Drop)]
pub struct MemSource {
    bytes: Vec<u8>,
    given: usize,
    piece: u32,
    fails: Vec<u64>,
    calls: u64,
    faults: u64,
}

impl Model for MemSource {
    ghost Value = { MemSourceState };

    ghost view = { λ s. record { left = drop s.given s.bytes.items; piece = s.piece; fails = s.fails.items; calls = s.calls; faults = s.faults } };

    ghost invariant = { λ s. (s.given ≤ length s.bytes.items) × (0 < s.piece) };
}

impl MemSource {
    /// A call gives at most `piece` bytes. The calls whose numbers, from 1 on, stand in `fails` fail.
    pub fn new(bytes: Vec<u8>, piece: u32, fails: Vec<u64>) -> MemSource
        requires { 0 < piece }
        ensures { result ≡ record { left = bytes.items; piece = piece; fails = fails.items; calls = 0; faults = 0 } }
    {
        MemSource {
            bytes,
            given: 0,
            piece,
            fails,
            calls: 0,
            faults: 0,
        }
    }
}

impl Source for MemSource {
    ghost means = { λ s. record { tells = true; left = s.left; faults = s.faults } };

    /// The number of calls stays once it is at the end of its range.
    fn read(&mut self, into: &mut [u8]) -> Result<usize, Failed>
        ensures due { IsErr result ↔ Contains self.old.fails (raised self.old.calls) }
        ensures failed { OnErr result (self.new ≡ record self.old { calls = raised self.old.calls; faults = raised self.old.faults }) }

        // As many bytes as there are, as the buffer holds and as a call gives.
        ensures count { IfOk result (λ count. count ≡ min (min (length into.old) self.old.piece) (length self.old.left)) }
        ensures gives { IfOk result (λ count. self.old.left ≡ take count into.new ++ self.new.left) }
        ensures given { IfOk result (λ count. self.new ≡ record self.old { calls = raised self.old.calls; left = drop count self.old.left }) }

        ensures ended { result ≡ Ok 0 → 0 < length into.old → self.old.left ≡ [] }
        ensures faults { self.old.faults ≤ self.new.faults }
    {
        self.calls = self.calls.saturating_add(1);
        if self.fails.contains(&self.calls) {
            self.faults = self.faults.saturating_add(1);
            return Err(Failed);
        }
        let left = &self.bytes[self.given..];
        let count = into.len().min(self.piece as usize).min(left.len());
        into[..count].copy_from_slice(&left[..count]);
        self.given += count;
        Ok(count)
    }
}

/// Keeps the bytes in a vector. A write that finds no memory fails.
#[derive(Debug, Drop)]
pub struct MemSink {
    bytes: Vec<u8>,
    fails: Vec<u64>,
    calls: u64,
    faults: u64,
}

impl Model for MemSink {
    ghost Value = { MemSinkState };

    ghost view = { λ s. record { holds = s.bytes.items; fails = s.fails.items; calls = s.calls; faults = s.faults } };
}

impl MemSink {
    /// The calls whose numbers, from 1 on, stand in `fails` fail.
    pub fn new(alloc: Global, fails: Vec<u64>) -> MemSink
        ensures { result ≡ record { holds = []; fails = fails.items; calls = 0; faults = 0 } }
    {
        MemSink {
            bytes: Vec::new(alloc),
            fails,
            calls: 0,
            faults: 0,
        }
    }

    pub fn bytes(&self) -> &[u8]
        ensures { result.now ≡ self.now.holds }
    {
        &self.bytes
    }

    pub fn into_bytes(self) -> Vec<u8>
        ensures { result.items ≡ self.holds }
    {
        self.bytes
    }
}

impl Sink for MemSink {
    ghost means = { λ s. record { tells = true; holds = s.holds; faults = s.faults } };

    /// The number of calls stays once it is at the end of its range. A call that isn't due to fail fails only where no
    /// memory is found.
    fn write(&mut self, from: &[u8]) -> Result<usize, Failed>
        ensures due { Contains self.old.fails (raised self.old.calls) → IsErr result }
        ensures failed { OnErr result (self.new ≡ record self.old { calls = raised self.old.calls; faults = raised self.old.faults }) }
        ensures count { IfOk result (λ count. count ≡ length from.now) }
        ensures written { OnOk result (self.new ≡ record self.old { calls = raised self.old.calls; holds = self.old.holds ++ from.now }) }
        ensures faults { self.old.faults ≤ self.new.faults }
    {
        self.calls = self.calls.saturating_add(1);
        if self.fails.contains(&self.calls) || self.bytes.extend_from_slice(from).is_err() {
            self.faults = self.faults.saturating_add(1);
            return Err(Failed);
        }
        Ok(from.len())
    }
}
