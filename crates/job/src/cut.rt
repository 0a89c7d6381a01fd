//! Where a job is cut into its source and its script.
ghost use Rattle.std.specs.Prelude.{◌≤◌, length, take, drop, IfSome, IfNone};
ghost use Rattle.job.specs.Lines.{IsCut, HasNoMark};

use super::lines::{content_of, line_len};

/// Where a job is cut: the source is the bytes before `source_end`, and the script those from
/// `script_start` on. The line between them is `%%`.
#[derive(Clone, Copy, Debug, PartialEq, Eq)]
pub struct Cut {
    /// Where the first line that is `%%` begins.
    pub source_end: usize,
    /// Where the line behind it begins.
    pub script_start: usize,
}

/// Cuts a job at its first line that is `%%`. None exactly where no line is.
pub fn cut_job(bytes: &[u8]) -> Option<Cut>
    ensures order { IfSome result (λ cut. cut.source_end ≤ cut.script_start) }
    ensures within { IfSome result (λ cut. cut.script_start ≤ length bytes.now) }
    ensures found { IfSome result (λ cut.
        IsCut bytes.now (take cut.source_end bytes.now) (drop cut.script_start bytes.now)) }
    ensures none { IfNone result (HasNoMark bytes.now) }
{
    let mut start = 0;
    while start < bytes.len() {
        let rest = &bytes[start..];
        let len = line_len(rest);
        if content_of(&rest[..len]) == b"%%".as_slice() {
            return Some(Cut {
                source_end: start,
                script_start: start + len,
            });
        }
        start += len;
    }
    None
}
