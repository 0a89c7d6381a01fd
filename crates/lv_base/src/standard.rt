//! A source and a sink over readers and writers of the standard library, which tell no content.
ghost use Rattle.std.specs.Prelude.{◌≡◌, ◌<◌, ◌≤◌, length, None, Err, IfOk, OnOk, OnErr, IsErrOf};
ghost use Rattle.std.specs.Io.KnownBytes.{ReadConsumes, WriteAppends};
ghost use Rattle.lv_base.specs.Counts.{Rose, one_more, CountsRead};

use super::count::raised;
use super::sink::Sink;
use super::source::{Source, Trouble};
use std::io::{Read, Write};

/// A source over a reader of the standard library. It tells no content.
#[derive(Drop)]
pub struct StdSource<R> {
    inner: R,
    faults: u64,
    taken: u64,
}

impl<R: Read> StdSource<R> {
    ghost use Rattle.lv_base.specs.Standard.{std_source_inner, std_source_faults, std_source_read};

    /// A source of what `inner` reads.
    pub fn new(inner: R) -> StdSource<R>
        ensures inner { std_source_inner result ≡ inner }
        ensures faults { std_source_faults result ≡ 0 }
        ensures read { std_source_read result ≡ 0 }
    {
        StdSource {
            inner,
            faults: 0,
            taken: 0,
        }
    }
}

impl<R: Read> Source for StdSource<R> {
    ghost use Rattle.lv_base.specs.Standard.{std_source_inner, std_source_faults, std_source_read};

    ghost left = { λ _. None };

    ghost faults = { std_source_faults };

    ghost bytes_read = { std_source_read };

    /// Reads what one read of the inner reader gives.
    ///
    /// # Errors
    ///
    /// `Failed` alone, at each error of the inner reader. The count of faults rises by one, or stays
    /// at its greatest value.
    fn read(&mut self, buf: &mut [u8]) -> Result<usize, Trouble>
        ensures bound { IfOk result (λ n. n ≤ length buf.new) }
        ensures bytes_counted { CountsRead (std_source_read self.old)
            (std_source_read self.new) result }
        ensures failed { IsErrOf result Trouble.Failed
            → Rose (std_source_faults self.old) (std_source_faults self.new) }
        ensures counted { std_source_faults self.old ≤ std_source_faults self.new }

        ensures bytes { ReadConsumes (R.remaining (std_source_inner self.old))
            (R.remaining (std_source_inner self.new)) result buf.new }
        ensures not_memory { ¬ IsErrOf result Trouble.Memory }
        ensures fault_counted { OnErr result
            (std_source_faults self.new ≡ one_more (std_source_faults self.old)) }
        ensures no_fault { OnOk result (std_source_faults self.new ≡ std_source_faults self.old) }
    {
        match self.inner.read(buf) {
            Ok(n) => {
                self.taken = raised(self.taken, n as u64);
                Ok(n)
            }
            Err(_) => {
                self.faults = raised(self.faults, 1);
                Err(Trouble::Failed)
            }
        }
    }
}

/// A sink over a writer of the standard library. It tells no content.
#[derive(Drop)]
pub struct StdSink<W> {
    inner: W,
    faults: u64,
}

impl<W: Write> StdSink<W> {
    ghost use Rattle.lv_base.specs.Standard.{std_sink_inner, std_sink_faults};

    /// A sink that gives what it takes to `inner`.
    pub fn new(inner: W) -> StdSink<W>
        ensures inner { std_sink_inner result ≡ inner }
        ensures faults { std_sink_faults result ≡ 0 }
    {
        StdSink { inner, faults: 0 }
    }
}

impl<W: Write> Sink for StdSink<W> {
    ghost use Rattle.lv_base.specs.Standard.{std_sink_inner, std_sink_faults};

    ghost contents = { λ _. None };

    ghost faults = { std_sink_faults };

    /// Appends what one write of the inner writer takes.
    ///
    /// # Errors
    ///
    /// `Failed` alone: at each error of the inner writer, and where it took nothing of `bytes` that
    /// aren't empty. The count of faults rises by one, or stays at its greatest value.
    fn write(&mut self, bytes: &[u8]) -> Result<usize, Trouble>
        ensures bound { IfOk result (λ n. n ≤ length bytes.now) }
        ensures progress { 0 < length bytes.now → IfOk result (λ n. 0 < n) }
        ensures failed { IsErrOf result Trouble.Failed
            → Rose (std_sink_faults self.old) (std_sink_faults self.new) }
        ensures counted { std_sink_faults self.old ≤ std_sink_faults self.new }

        ensures bytes { WriteAppends (W.contents (std_sink_inner self.old))
            (W.contents (std_sink_inner self.new)) result bytes.now }
        ensures not_memory { ¬ IsErrOf result Trouble.Memory }
        ensures fault_counted { OnErr result
            (std_sink_faults self.new ≡ one_more (std_sink_faults self.old)) }
        ensures no_fault { OnOk result (std_sink_faults self.new ≡ std_sink_faults self.old) }
    {
        match self.inner.write(bytes) {
            Ok(n) if n > 0 || bytes.is_empty() => Ok(n),
            _ => {
                self.faults = raised(self.faults, 1);
                Err(Trouble::Failed)
            }
        }
    }
}
