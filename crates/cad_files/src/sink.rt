//! Where a job's answers go.

ghost use Rattle.std.specs.Prelude.{◌≡◌, ◌≤◌, ◌<◌, ◌-◌, ◌==◌, ℕ, List, Option, Some, length, take, MatchResult, OnOk, OnErr, IfOk, is_err, IsErr, ◌↔◌, [], if◌then◌else◌};
ghost use Rattle.std.specs.Io.KnownBytes.{Appends, Keeps};
ghost use Rattle.cad_files.specs.Sinks.{IsFront, fails_with, counted_up};

use std::alloc::Global;
use std::marker::Model;

/// A sink failed.
#[derive(Clone, Copy, Debug, PartialEq, Eq)]
pub struct SinkFault;

/// What takes bytes.
pub trait Sink {
    /// The bytes that were taken, where the sink tells them.
    ghost taken: { Self → Option (List ℕ) };

    /// How many calls failed; it stays at the greatest u64.
    ghost failures: { Self → ℕ };

    /// Takes a front of the bytes, and says how long it is. To take nothing of a piece that is not
    /// empty is a failed call.
    fn write(&mut self, bytes: &[u8]) -> Result<usize, SinkFault>
        ensures within { IfOk result (λ n. n ≤ length bytes.now) }
        ensures taken { MatchResult result
            (λ n. Appends (taken self.old) (taken self.new) (take n bytes.now))
            (λ _. Keeps (taken self.old) (taken self.new)) }
        ensures failures { failures self.new ≡ (if fails_with result bytes.now then
            counted_up (failures self.old) else failures self.old) };

    /// Sends on what was taken.
    fn flush(&mut self) -> Result<(), SinkFault>
        ensures taken { Keeps (taken self.old) (taken self.new) }
        ensures failures { failures self.new ≡ (if is_err result then counted_up (failures self.old)
            else failures self.old) };
}

/// A sink that keeps its bytes in memory, and fails from a call on.
#[derive(Drop)]
pub struct MemSink {
    bytes: Vec<u8>,
    calls: u64,
    fails_from: u64,
    failures: u64,
}

impl Model for MemSink {
    ghost use Rattle.cad_files.specs.Sinks.{KeptBytes};

    ghost Value = { KeptBytes };

    ghost view = { λ s.
        record {
          bytes = s.bytes.items;
          calls = s.calls;
          fails_from = s.fails_from;
          failures = s.failures;
        } };
}

impl MemSink {
    /// An empty sink whose calls fail from this one on, counted from 1.
    pub fn new(alloc: Global, fails_from: u64) -> MemSink
        ensures { result ≡ record { bytes = []; calls = 0; fails_from = fails_from; failures = 0 } }
    {
        MemSink {
            bytes: Vec::new(alloc),
            calls: 0,
            fails_from,
            failures: 0,
        }
    }

    /// The bytes taken.
    pub fn bytes(&self) -> &[u8]
        ensures { result.now ≡ self.now.bytes }
    {
        self.bytes.as_slice()
    }
}

impl Sink for MemSink {
    ghost taken = { λ s. Some s.bytes };

    ghost failures = { λ s. s.failures };

    fn write(&mut self, bytes: &[u8]) -> Result<usize, SinkFault>
        ensures within { IfOk result (λ n. n ≤ length bytes.now) }
        ensures taken { MatchResult result
            (λ n. Appends (Some self.old.bytes) (Some self.new.bytes) (take n bytes.now))
            (λ _. Keeps (Some self.old.bytes) (Some self.new.bytes)) }
        ensures failures { self.new.failures ≡ (if fails_with result bytes.now then
            counted_up self.old.failures else self.old.failures) }
        ensures whole { IfOk result (λ n. n ≡ length bytes.now) }
        ensures calls { self.new.calls ≡ counted_up self.old.calls }
        ensures fails { self.old.fails_from ≤ counted_up self.old.calls → IsErr result }
        ensures limit { self.new.fails_from ≡ self.old.fails_from }
    {
        self.calls = self.calls.saturating_add(1);
        if self.calls >= self.fails_from || self.bytes.extend_from_slice(bytes).is_err() {
            self.failures = self.failures.saturating_add(1);
            return Err(SinkFault);
        }
        Ok(bytes.len())
    }

    fn flush(&mut self) -> Result<(), SinkFault>
        ensures taken { Keeps (Some self.old.bytes) (Some self.new.bytes) }
        ensures failures { self.new.failures ≡ (if is_err result then counted_up self.old.failures
            else self.old.failures) }
        ensures calls { self.new.calls ≡ counted_up self.old.calls }
        ensures fails { IsErr result ↔ (self.old.fails_from ≤ counted_up self.old.calls) }
        ensures limit { self.new.fails_from ≡ self.old.fails_from }
    {
        self.calls = self.calls.saturating_add(1);
        if self.calls >= self.fails_from {
            self.failures = self.failures.saturating_add(1);
            return Err(SinkFault);
        }
        Ok(())
    }
}

/// Writes all the bytes, by as many calls as it takes.
pub fn write_all<S: Sink>(sink: &mut S, bytes: &[u8]) -> Result<(), SinkFault>
    ensures ok { OnOk result (Appends (S.taken sink.old) (S.taken sink.new) bytes.now) }
    ensures err { OnErr result ((front : List ℕ) × IsFront front bytes.now
        × Appends (S.taken sink.old) (S.taken sink.new) front) }
    ensures failed { OnErr result (S.failures sink.new ≡ counted_up (S.failures sink.old)) }
    ensures passed { OnOk result (S.failures sink.new ≡ S.failures sink.old) }
{
    let mut rest = bytes;
    while !rest.is_empty() {
        let count = match sink.write(rest) {
            Ok(count) => count,
            Err(SinkFault) => return Err(SinkFault),
        };
        if count == 0 {
            return Err(SinkFault);
        }
        rest = rest.split_at(count).1;
    }
    Ok(())
}
