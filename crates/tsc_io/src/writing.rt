//! Writing all of some bytes.
ghost use Rattle.std.specs.Prelude.{◌≤◌, OnOk, OnErr};
ghost use Rattle.std.specs.Io.KnownBytes.{Appends};
ghost use Rattle.tsc_io.specs.Counts.{Rose};
ghost use Rattle.tsc_io.specs.Writing.{AppendsPrefix};

use crate::sink::Sink;
use thiserror::Error;

/// A sink failed before it took all bytes.
#[derive(Clone, Copy, Debug, PartialEq, Eq, Error)]
#[error("writing failed")]
pub struct WriteFault;

/// Writes all of `bytes`. It takes no memory.
///
/// # Errors
///
/// The sink failed; then it has some first bytes of them.
pub fn write_all<K: Sink>(sink: &mut K, bytes: &[u8]) -> Result<(), WriteFault>
    ensures ok { OnOk result (Appends (K.written sink.old) (K.written sink.new) bytes.now) }

    // It fails only where the sink did, and then a prefix was written.
    ensures write_fault { OnErr result (Rose (K.faults sink.old) (K.faults sink.new)) }
    ensures prefix { OnErr result (AppendsPrefix (K.written sink.old) (K.written sink.new) bytes.now) }
    ensures faults_stay { K.faults sink.old ≤ K.faults sink.new }
{
    let mut start = 0;
    while start < bytes.len() {
        let Ok(count) = sink.write(&bytes[start..]) else {
            return Err(WriteFault);
        };
        start += count;
    }
    Ok(())
}
