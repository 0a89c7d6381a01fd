//! A source and a sink in memory that work in small pieces and fail where they are told to.
ghost use Rattle.std.specs.Prelude.{◌≡◌, ◌↔◌, ◌⊎◌, ◌+◌, ◌<◌, ◌≤◌, [], length, min, vec_len, vec_capacity, Contains, Some, IfOk, OnOk, OnErr, IsErrOf, IsTrue};
ghost use Rattle.std.specs.Io.KnownBytes.{ReadConsumes, WriteAppends};
ghost use Rattle.lv_base.specs.Counts.{Rose, one_more, CountsRead};

use super::count::raised;
use super::sink::Sink;
use super::source::{Source, Trouble};
use super::vector::VecSource;
use std::alloc::{AllocError, Global};

/// A source over bytes in memory, for tests: it comes in small pieces and fails where it is told to.
#[derive(Drop)]
pub struct MemSource {
    bytes: VecSource,
    piece: usize,
    fails: Vec<u64>,
    calls: u64,
    faults: u64,
    ghost piece_is_positive: { 0 < piece },
}

impl MemSource {
    ghost use Rattle.lv_base.specs.Memory.{mem_source_left, mem_source_read, mem_source_piece, mem_source_fails, mem_source_calls, mem_source_faults};

    /// A source of all of `bytes`, at most `piece` in each call. The calls whose numbers, from 1,
    /// stand in `fails` answer `Failed`.
    pub fn new(bytes: Vec<u8>, piece: usize, fails: Vec<u64>) -> MemSource
        requires { 0 < piece }
        ensures left { mem_source_left result ≡ bytes.items }
        ensures read { mem_source_read result ≡ 0 }
        ensures piece { mem_source_piece result ≡ piece }
        ensures fails { mem_source_fails result ≡ fails.items }
        ensures calls { mem_source_calls result ≡ 0 }
        ensures faults { mem_source_faults result ≡ 0 }
    {
        MemSource {
            bytes: VecSource::new(bytes),
            piece,
            fails,
            calls: 0,
            faults: 0,
        }
    }
}

impl Source for MemSource {
    ghost use Rattle.lv_base.specs.Memory.{mem_source_left, mem_source_read, mem_source_piece, mem_source_fails, mem_source_calls, mem_source_faults};

    ghost left = { λ s. Some (mem_source_left s) };

    ghost faults = { mem_source_faults };

    ghost bytes_read = { mem_source_read };

    /// Reads as many bytes as the piece, `buf` and what is left allow.
    ///
    /// # Errors
    ///
    /// `Failed` alone, exactly where the call's number stands in the list of calls that fail. It takes
    /// nothing, and the count of faults rises by one.
    fn read(&mut self, buf: &mut [u8]) -> Result<usize, Trouble>
        ensures bound { IfOk result (λ n. n ≤ length buf.new) }
        ensures bytes { ReadConsumes (Some (mem_source_left self.old))
            (Some (mem_source_left self.new)) result buf.new }
        ensures bytes_counted { CountsRead (mem_source_read self.old)
            (mem_source_read self.new) result }
        ensures failed { IsErrOf result Trouble.Failed
            → Rose (mem_source_faults self.old) (mem_source_faults self.new) }
        ensures counted { mem_source_faults self.old ≤ mem_source_faults self.new }

        ensures fails { IsErrOf result Trouble.Failed
            ↔ Contains (mem_source_fails self.old) (one_more (mem_source_calls self.old)) }
        ensures not_memory { ¬ IsErrOf result Trouble.Memory }
        ensures amount { IfOk result (λ n. n ≡ min (mem_source_piece self.old)
            (min (length buf.old) (length (mem_source_left self.old)))) }
        ensures fault_counted { OnErr result
            (mem_source_faults self.new ≡ one_more (mem_source_faults self.old)) }
        ensures no_fault { OnOk result (mem_source_faults self.new ≡ mem_source_faults self.old) }
        ensures call_counted { mem_source_calls self.new ≡ one_more (mem_source_calls self.old) }
        ensures same_piece { mem_source_piece self.new ≡ mem_source_piece self.old }
        ensures same_fails { mem_source_fails self.new ≡ mem_source_fails self.old }
    {
        self.calls = raised(self.calls, 1);
        if self.fails.contains(&self.calls) {
            self.faults = raised(self.faults, 1);
            return Err(Trouble::Failed);
        }
        let most = buf.len().min(self.piece);
        self.bytes.read(&mut buf[..most])
    }
}

/// A sink in memory with a fixed room, for tests: it takes small pieces and fails where it is told to.
#[derive(Drop)]
pub struct MemSink {
    held: Vec<u8>,
    room: usize,
    piece: usize,
    fails: Vec<u64>,
    calls: u64,
    faults: u64,
    ghost within: { vec_len held ≤ room },
    ghost reserved: { room ≤ vec_capacity held },
    ghost piece_is_positive: { 0 < piece },
}

impl MemSink {
    ghost use Rattle.lv_base.specs.Memory.{mem_sink_bytes, mem_sink_room, mem_sink_piece, mem_sink_fails, mem_sink_calls, mem_sink_faults};

    /// A sink that holds nothing and has room for `room` bytes, which it reserves. It takes at most
    /// `piece` bytes in each call. The calls whose numbers, from 1, stand in `fails` answer `Failed`.
    ///
    /// # Errors
    ///
    /// `AllocError`.
    pub fn new(
        alloc: Global,
        room: usize,
        piece: usize,
        fails: Vec<u64>,
    ) -> Result<MemSink, AllocError>
        requires { 0 < piece }
        ensures bytes { IfOk result (λ s. mem_sink_bytes s ≡ []) }
        ensures room { IfOk result (λ s. mem_sink_room s ≡ room) }
        ensures piece { IfOk result (λ s. mem_sink_piece s ≡ piece) }
        ensures fails { IfOk result (λ s. mem_sink_fails s ≡ fails.items) }
        ensures calls { IfOk result (λ s. mem_sink_calls s ≡ 0) }
        ensures faults { IfOk result (λ s. mem_sink_faults s ≡ 0) }
    {
        let held = Vec::with_capacity(alloc, room)?;
        Ok(MemSink {
            held,
            room,
            piece,
            fails,
            calls: 0,
            faults: 0,
        })
    }

    /// The bytes that the sink holds.
    pub fn bytes(&self) -> &[u8]
        ensures { result.now ≡ mem_sink_bytes self.now }
    {
        &self.held
    }

    // Whether the call that is counted last fails.
    fn refuses(&self, bytes: &[u8]) -> bool
        ensures { IsTrue result
            ↔ (Contains (mem_sink_fails self.now) (mem_sink_calls self.now)
            ⊎ ((0 < length bytes.now) × (mem_sink_room self.now ≡ 0))) }
    {
        let is_full = self.held.len() == self.room;
        self.fails.contains(&self.calls) || (is_full && !bytes.is_empty())
    }
}

impl Sink for MemSink {
    ghost use Rattle.lv_base.specs.Memory.{mem_sink_bytes, mem_sink_room, mem_sink_piece, mem_sink_fails, mem_sink_calls, mem_sink_faults};

    ghost contents = { λ s. Some (mem_sink_bytes s) };

    ghost faults = { mem_sink_faults };

    /// Appends as many bytes as the piece, `bytes` and the room that is left allow.
    ///
    /// # Errors
    ///
    /// `Failed` alone, exactly where the call's number stands in the list of calls that fail, or where
    /// `bytes` isn't empty and no room is left. It appends nothing, and the count of faults rises by
    /// one.
    fn write(&mut self, bytes: &[u8]) -> Result<usize, Trouble>
        ensures bound { IfOk result (λ n. n ≤ length bytes.now) }
        ensures progress { 0 < length bytes.now → IfOk result (λ n. 0 < n) }
        ensures bytes { WriteAppends (Some (mem_sink_bytes self.old))
            (Some (mem_sink_bytes self.new)) result bytes.now }
        ensures failed { IsErrOf result Trouble.Failed
            → Rose (mem_sink_faults self.old) (mem_sink_faults self.new) }
        ensures counted { mem_sink_faults self.old ≤ mem_sink_faults self.new }

        ensures fails { IsErrOf result Trouble.Failed
            ↔ (Contains (mem_sink_fails self.old) (one_more (mem_sink_calls self.old))
            ⊎ ((0 < length bytes.now) × (mem_sink_room self.old ≡ 0))) }
        ensures not_memory { ¬ IsErrOf result Trouble.Memory }
        ensures amount { IfOk result (λ n. n ≡ min (mem_sink_piece self.old)
            (min (length bytes.now) (mem_sink_room self.old))) }
        ensures same_size { mem_sink_room self.new + length (mem_sink_bytes self.new)
            ≡ mem_sink_room self.old + length (mem_sink_bytes self.old) }
        ensures fault_counted { OnErr result
            (mem_sink_faults self.new ≡ one_more (mem_sink_faults self.old)) }
        ensures no_fault { OnOk result (mem_sink_faults self.new ≡ mem_sink_faults self.old) }
        ensures call_counted { mem_sink_calls self.new ≡ one_more (mem_sink_calls self.old) }
        ensures same_piece { mem_sink_piece self.new ≡ mem_sink_piece self.old }
        ensures same_fails { mem_sink_fails self.new ≡ mem_sink_fails self.old }
    {
        self.calls = raised(self.calls, 1);
        if self.refuses(bytes) {
            self.faults = raised(self.faults, 1);
            return Err(Trouble::Failed);
        }
        let room = self.room - self.held.len();
        let n = self.piece.min(bytes.len()).min(room);
        self.held.extend_from_slice(&bytes[..n]).unwrap();
        Ok(n)
    }
}
