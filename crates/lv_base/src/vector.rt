//! A source and a sink over a `Vec`, which never fail.
ghost use Rattle.std.specs.Prelude.{◌≡◌, ◌<◌, ◌≤◌, [], length, take, min, vec_len, Some, Ok, IfOk, IsErrOf};
ghost use Rattle.std.specs.Io.KnownBytes.{ReadConsumes, WriteAppends};
ghost use Rattle.lv_base.specs.Counts.{CountsRead};

use super::sink::Sink;
use super::source::{Source, Trouble};
use std::alloc::Global;

/// A source over the bytes of a `Vec`. It never fails, so its count of faults is 0.
#[derive(Drop)]
pub struct VecSource {
    bytes: Vec<u8>,
    taken: usize,
    ghost within: { taken ≤ vec_len bytes },
}

impl VecSource {
    ghost use Rattle.lv_base.specs.Vector.{vec_source_left, vec_source_read};

    /// A source of all of `bytes`.
    pub fn new(bytes: Vec<u8>) -> VecSource
        ensures left { vec_source_left result ≡ bytes.items }
        ensures read { vec_source_read result ≡ 0 }
    {
        VecSource { bytes, taken: 0 }
    }
}

impl Source for VecSource {
    ghost use Rattle.lv_base.specs.Vector.{vec_source_left, vec_source_read};

    ghost left = { λ s. Some (vec_source_left s) };

    ghost faults = { λ _. 0 };

    ghost bytes_read = { vec_source_read };

    /// Reads as many bytes as `buf` has room for and the source has left. It never errs.
    fn read(&mut self, buf: &mut [u8]) -> Result<usize, Trouble>
        ensures bound { IfOk result (λ n. n ≤ length buf.new) }
        ensures bytes { ReadConsumes (Some (vec_source_left self.old))
            (Some (vec_source_left self.new)) result buf.new }
        ensures bytes_counted { CountsRead (vec_source_read self.old)
            (vec_source_read self.new) result }
        ensures amount { result ≡ Ok (min (length buf.old) (length (vec_source_left self.old))) }
    {
        let n = copy_prefix(&self.bytes[self.taken..], buf);
        self.taken += n;
        Ok(n)
    }
}

/// Copies as much of a prefix of `from` as `buf` has room for, and answers how much.
fn copy_prefix(from: &[u8], buf: &mut [u8]) -> usize
    ensures amount { result ≡ min (length buf.old) (length from.now) }
    ensures prefix { take result buf.new ≡ take result from.now }
{
    let n = buf.len().min(from.len());
    buf[..n].copy_from_slice(&from[..n]);
    n
}

/// A sink that keeps its bytes in a `Vec`. It never fails, so its count of faults is 0.
#[derive(Drop)]
pub struct VecSink {
    held: Vec<u8>,
}

impl VecSink {
    ghost use Rattle.lv_base.specs.Vector.{vec_sink_bytes};

    /// A sink that holds nothing. It takes no memory yet.
    pub fn new(alloc: Global) -> VecSink
        ensures { vec_sink_bytes result ≡ [] }
    {
        VecSink {
            held: Vec::new(alloc),
        }
    }

    /// The bytes that the sink holds.
    pub fn bytes(&self) -> &[u8]
        ensures { result.now ≡ vec_sink_bytes self.now }
    {
        &self.held
    }
}

impl Sink for VecSink {
    ghost use Rattle.lv_base.specs.Vector.{vec_sink_bytes};

    ghost contents = { λ s. Some (vec_sink_bytes s) };

    ghost faults = { λ _. 0 };

    /// Appends all of `bytes`.
    ///
    /// # Errors
    ///
    /// `Memory` alone, which appends nothing.
    fn write(&mut self, bytes: &[u8]) -> Result<usize, Trouble>
        ensures bound { IfOk result (λ n. n ≤ length bytes.now) }
        ensures progress { 0 < length bytes.now → IfOk result (λ n. 0 < n) }
        ensures bytes { WriteAppends (Some (vec_sink_bytes self.old))
            (Some (vec_sink_bytes self.new)) result bytes.now }
        ensures amount { IfOk result (λ n. n ≡ length bytes.now) }
        ensures failed { ¬ IsErrOf result Trouble.Failed }
    {
        match self.held.extend_from_slice(bytes) {
            Ok(()) => Ok(bytes.len()),
            Err(_) => Err(Trouble::Memory),
        }
    }
}
