//! Where bytes go.
ghost use Rattle.std.specs.Prelude.{◌≡◌, ℕ, List, OnOk, OnErr};
ghost use Rattle.std.specs.Io.KnownBytes.{Appends};
ghost use Rattle.cad_files.specs.Sinks.{IsFront, counted_up};

use cad_files::{Sink, SinkFault, write_all};

/// Writes all the bytes to a sink.
pub fn write_each_byte<S: Sink>(sink: &mut S, bytes: &[u8]) -> Result<(), SinkFault>
    ensures ok { OnOk result (Appends (S.taken sink.old) (S.taken sink.new) bytes.now) }
    ensures err { OnErr result ((front : List ℕ) × IsFront front bytes.now
        × Appends (S.taken sink.old) (S.taken sink.new) front) }
    ensures failed { OnErr result (S.failures sink.new ≡ counted_up (S.failures sink.old)) }
    ensures passed { OnOk result (S.failures sink.new ≡ S.failures sink.old) }
{
    write_all(sink, bytes)
}
