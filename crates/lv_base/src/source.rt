//! Where bytes come from, and how they are read to the end.
ghost use Rattle.std.specs.Prelude.{ℕ, ◌≤◌, List, Option, length, IfOk, OnOk, OnErr, IsErrOf, vec_len};
ghost use Rattle.std.specs.Io.KnownBytes.{IsAtEnd, ReadConsumes};
ghost use Rattle.lv_base.specs.Counts.{Rose, CountsRead};
ghost use Rattle.lv_base.specs.Whole.{Takes, TakesWithin, TakesAbove};

use std::alloc::Global;
use thiserror::Error;

/// Why one read or write gave up.
#[derive(Clone, Copy, Debug, PartialEq, Eq, Error)]
pub enum Trouble {
    /// The call failed, and the count of faults rose.
    #[error("failed")]
    Failed,
    /// No memory was left.
    #[error("out of memory")]
    Memory,
}

/// Bytes that come in pieces.
pub trait Source {
    /// The bytes that are left, where the source tells them. What is said of content holds there.
    ghost left: { Self → Option (List ℕ) };

    /// How many faults were counted, from 0 to the greatest `u64`.
    ghost faults: { Self → ℕ };

    /// How many bytes were read, from 0 to the greatest `u64`, where the count stays. It says how much
    /// came also where the source doesn't tell its bytes.
    ghost bytes_read: { Self → ℕ };

    /// Takes the first bytes of what is left into the front of `buf`, and answers how many, at most
    /// `buf.len()`. For a `buf` that isn't empty, 0 comes exactly where nothing is left. What stands
    /// in `buf` behind them is any bytes.
    ///
    /// # Errors
    ///
    /// `Failed` only where the count of faults rose, and `Memory`. Either takes nothing.
    fn read(&mut self, buf: &mut [u8]) -> Result<usize, Trouble>
        ensures bound { IfOk result (λ n. n ≤ length buf.new) }
        ensures bytes { ReadConsumes (left self.old) (left self.new) result buf.new }
        ensures bytes_counted { CountsRead (bytes_read self.old) (bytes_read self.new) result }
        ensures failed { IsErrOf result Trouble.Failed → Rose (faults self.old) (faults self.new) }
        ensures counted { faults self.old ≤ faults self.new };
}

/// Why a source wasn't read to its end.
#[derive(Clone, Copy, Debug, PartialEq, Eq, Error)]
pub enum ReadEnd {
    /// The source failed, and its count of faults rose.
    #[error("the source failed")]
    Fault,
    /// More bytes came than the limit.
    #[error("too many bytes")]
    Long,
    /// No memory was left.
    #[error("out of memory")]
    Memory,
}

/// All the bytes that are left, which are at most `limit`.
///
/// # Errors
///
/// `Fault` only where the source's count of faults rose in this call; `Long` exactly where more than
/// `limit` bytes came; and `Memory`. Each leaves the source with some prefix of what was left taken:
/// `Long` with more than `limit` bytes of it, the other two with at most so many. All this holds by the
/// source's count of bytes where it doesn't tell them.
#[tactic(auto, using(crate::proofs::WholeLemmas::reads))]
pub fn read_all<S: Source>(alloc: Global, source: &mut S, limit: usize) -> Result<Vec<u8>, ReadEnd>
    ensures all { IfOk result (λ bytes. Takes bytes.items
        (S.left source.old) (S.left source.new)
        (S.bytes_read source.old) (S.bytes_read source.new)) }
    ensures end { OnOk result (IsAtEnd (S.left source.new)) }
    ensures within { IfOk result (λ bytes. vec_len bytes ≤ limit) }
    ensures long { IsErrOf result ReadEnd.Long → TakesAbove limit
        (S.left source.old) (S.left source.new)
        (S.bytes_read source.old) (S.bytes_read source.new) }
    ensures short { OnErr result (¬ IsErrOf result ReadEnd.Long → TakesWithin limit
        (S.left source.old) (S.left source.new)
        (S.bytes_read source.old) (S.bytes_read source.new)) }
    ensures fault { IsErrOf result ReadEnd.Fault
        → Rose (S.faults source.old) (S.faults source.new) }
    ensures counted { S.faults source.old ≤ S.faults source.new }
{
    let mut bytes = Vec::new(alloc);
    let mut piece = [0u8; 4096];
    loop {
        let n = next_piece(source, &mut piece)?;
        if n == 0 {
            return Ok(bytes);
        }
        if n > limit - bytes.len() {
            return Err(ReadEnd::Long);
        }
        bytes
            .extend_from_slice(&piece[..n])
            .map_err(|_| ReadEnd::Memory)?;
    }
}

/// Reads one piece into the front of `piece`, with the errors of `read_all`.
fn next_piece<S: Source>(source: &mut S, piece: &mut [u8]) -> Result<usize, ReadEnd>
    ensures bound { IfOk result (λ n. n ≤ length piece.new) }
    ensures bytes { ReadConsumes (S.left source.old) (S.left source.new) result piece.new }
    ensures bytes_counted { CountsRead (S.bytes_read source.old) (S.bytes_read source.new) result }
    ensures short { ¬ IsErrOf result ReadEnd.Long }
    ensures fault { IsErrOf result ReadEnd.Fault
        → Rose (S.faults source.old) (S.faults source.new) }
    ensures counted { S.faults source.old ≤ S.faults source.new }
{
    match source.read(piece) {
        Ok(n) => Ok(n),
        Err(Trouble::Failed) => Err(ReadEnd::Fault),
        Err(Trouble::Memory) => Err(ReadEnd::Memory),
    }
}
