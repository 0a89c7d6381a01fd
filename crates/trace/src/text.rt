//! The text of a trace.
ghost use Rattle.std.specs.Prelude.{◌≡◌, ◌++◌, ◌∷◌, [], IfOk, OnOk};
ghost use Rattle.std.specs.List.{flat_map};
ghost use Rattle.trace.specs.Text.{input_text, is_brief, record_text, run_text, trace_text};

use super::kept::KeptRecords;
use super::record::{push_input, push_record};
use super::records::Trace;
use meaning::{Action, Note, Record};
use std::alloc::AllocError;

/// Whether the brief text shows the record.
fn is_brief(entry: &Record) -> bool
    ensures { result ≡ is_brief entry.now }
{
    match entry {
        Record::Steps { .. } => false,
        Record::Did { action, .. } => matches!(action, Action::Print(_)),
        Record::Noted { note, .. } => {
            !matches!(note, Note::CodeSlot { .. } | Note::CodeOwn { .. })
        }
        Record::Wrote { .. } => true,
    }
}

/// Appends a record's line, where the text shows it: in full each, in brief some.
fn push_shown(text: &mut Vec<u8>, entry: &Record, full: bool) -> Result<(), AllocError>
    ensures { OnOk result (text.new.items ≡ text.old.items ++ trace_text full (entry.now ∷ [])) }
{
    if full || is_brief(entry) {
        push_record(text, *entry)?;
    }
    Ok(())
}

/// Appends the lines of records, of all or of those that the brief text shows.
fn push_records(text: &mut Vec<u8>, records: &KeptRecords, full: bool) -> Result<(), AllocError>
    ensures { OnOk result (text.new.items ≡ text.old.items ++ trace_text full (records.now).records) }
{
    for i in 0..records.len() {
        push_shown(text, records.at(i), full)?;
    }
    Ok(())
}

/// Appends the lines of inputs.
fn push_inputs(text: &mut Vec<u8>, inputs: &[i64]) -> Result<(), AllocError>
    ensures { OnOk result (text.new.items ≡ text.old.items ++ flat_map input_text inputs.now) }
{
    for v in inputs {
        push_input(text, *v)?;
    }
    Ok(())
}

impl Trace {
    /// The text of the trace, in full or in brief. The full text begins with the inputs.
    ///
    /// # Errors
    ///
    /// `AllocError`, where no memory is left.
    pub fn text(&self, full: bool) -> Result<Vec<u8>, AllocError>
        ensures { IfOk result (λ text. text.items ≡ run_text full self.now.inputs self.now.records) }
    {
        let mut text = Vec::new(self.alloc);
        if full {
            push_inputs(&mut text, self.inputs.as_slice())?;
        }
        push_records(&mut text, &self.earlier, full)?;
        if let Some(last) = &self.last {
            push_shown(&mut text, last, full)?;
        }
        Ok(text)
    }
}
