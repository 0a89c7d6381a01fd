//! Where bytes go, and how a whole piece is written.
ghost use Rattle.std.specs.Prelude.{ℕ, ◌<◌, ◌≤◌, List, Option, length, IfOk, OnOk, OnErr, IsErrOf};
ghost use Rattle.std.specs.Io.KnownBytes.{Appends, WriteAppends};
ghost use Rattle.lv_base.specs.Counts.{Rose};
ghost use Rattle.lv_base.specs.Whole.{AppendsPrefix};

use super::source::Trouble;
use thiserror::Error;

/// Bytes that go out in pieces.
pub trait Sink {
    /// The bytes that the sink holds, where it tells them. What is said of content holds there.
    ghost contents: { Self → Option (List ℕ) };

    /// How many faults were counted, from 0 to the greatest `u64`.
    ghost faults: { Self → ℕ };

    /// Appends the first bytes of `bytes`, and answers how many, at most `bytes.len()` and, where
    /// `bytes` isn't empty, at least one.
    ///
    /// # Errors
    ///
    /// `Failed` only where the count of faults rose, and `Memory`. Either appends nothing.
    fn write(&mut self, bytes: &[u8]) -> Result<usize, Trouble>
        ensures bound { IfOk result (λ n. n ≤ length bytes.now) }
        ensures progress { 0 < length bytes.now → IfOk result (λ n. 0 < n) }
        ensures bytes { WriteAppends (contents self.old) (contents self.new) result bytes.now }
        ensures failed { IsErrOf result Trouble.Failed → Rose (faults self.old) (faults self.new) }
        ensures counted { faults self.old ≤ faults self.new };
}

/// Why a whole piece wasn't written.
#[derive(Clone, Copy, Debug, PartialEq, Eq, Error)]
pub enum WriteEnd {
    /// The sink failed, and its count of faults rose.
    #[error("the sink failed")]
    Fault,
    /// No memory was left.
    #[error("out of memory")]
    Memory,
}

/// Appends all of `bytes`.
///
/// # Errors
///
/// `Fault` only where the sink's count of faults rose in this call, and `Memory`. Either leaves the
/// sink with some prefix of `bytes` appended.
pub fn write_all<K: Sink>(sink: &mut K, bytes: &[u8]) -> Result<(), WriteEnd>
    ensures all { OnOk result (Appends (K.contents sink.old) (K.contents sink.new) bytes.now) }
    ensures prefix { OnErr result
        (AppendsPrefix (K.contents sink.old) (K.contents sink.new) bytes.now) }
    ensures fault { IsErrOf result WriteEnd.Fault → Rose (K.faults sink.old) (K.faults sink.new) }
    ensures counted { K.faults sink.old ≤ K.faults sink.new }
{
    let mut rest = bytes;
    while !rest.is_empty() {
        match sink.write(rest) {
            Ok(n) => rest = &rest[n..],
            Err(Trouble::Failed) => return Err(WriteEnd::Fault),
            Err(Trouble::Memory) => return Err(WriteEnd::Memory),
        }
    }
    Ok(())
}
