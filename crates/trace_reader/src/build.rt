//! Traces from their full texts.
ghost use Rattle.std.specs.Prelude.{◌≡◌, ℕ, ℤ, ◌^◌, ◌<◌, ◌≤◌, ◌+◌, List, [], ◌∷◌, ◌++◌, length, IfOk, IfErr};
ghost use Rattle.meaning.specs.declared.record.Record.{Record};
ghost use Rattle.trace_reader.specs.FullText.{HasFullText, IsTrace, IsRecord, IsRefusal, IsFirstBad, GivesBack, NamesLine};
ghost use Rattle.trace_reader.specs.inner.Items.{Follows};

use super::error::TraceRefusal;
use super::read::{Lines, read_lines};
use fields::field_laws;
use meaning::Record;
use std::alloc::{AllocError, Global};
use trace::Trace;

/// Adds a record that goes last.
fn push_behind(trace: &mut Trace, entry: Record)
    requires spare { 1 ≤ (trace.old).spare }
    requires proper { IsRecord entry }
    requires last { Follows (trace.old).records entry }
    ensures inputs { (trace.new).inputs ≡ (trace.old).inputs }
    ensures records { (trace.new).records ≡ (trace.old).records ++ entry ∷ [] }
    ensures spare { (trace.old).spare ≤ (trace.new).spare + 1 }
{
    trace.push(entry);
}

/// The trace of these lines.
fn trace_of(alloc: Global, lines: &Lines) -> Result<Trace, AllocError>
    requires { IsTrace lines.now.inputs lines.now.records }
    ensures inputs { IfOk result (λ trace. trace.inputs ≡ lines.now.inputs) }
    ensures records { IfOk result (λ trace. trace.records ≡ lines.now.records) }
{
    let mut trace = Trace::new(alloc);
    trace.start(&lines.inputs)?;
    let entries = lines.records.as_slice();
    trace.reserve(entries.len())?;
    for entry in entries {
        push_behind(&mut trace, *entry);
    }
    Ok(trace)
}

/// The trace that has this full text.
///
/// # Errors
///
/// `Line` exactly where the text is no trace's, with the first line that no trace's full text has there;
/// and `Memory`.
pub fn read_trace(alloc: Global, bytes: &[u8]) -> Result<Trace, TraceRefusal>
    requires { length bytes.now < 2 ^ 31 }
    ensures found { IfOk result (λ trace. HasFullText trace.inputs trace.records bytes.now) }
    ensures refused { IfErr result (IsRefusal bytes.now) }

    // Each answer comes wherever its case holds, unless memory runs out.
    ensures whole { (inputs : List ℤ) (records : List Record) → HasFullText inputs records bytes.now
        → GivesBack inputs records result }
    ensures line { (n : ℕ) → IsFirstBad bytes.now n → NamesLine n result }
{
    field_laws();
    let lines = read_lines(alloc, bytes)?;
    Ok(trace_of(alloc, &lines)?)
}
