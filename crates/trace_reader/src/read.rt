//! Reading a full text, line by line.
ghost use Rattle.std.specs.Prelude.{◌≡◌, ◌≢◌, ℕ, ℤ, ◌+◌, ◌^◌, ◌<◌, List, [], ◌∷◌, ◌++◌, ◌⊎◌, length, true, false, Result, IsTrue, ◌↔◌, IfOk, IfErr, OnOk};
ghost use Rattle.trace_reader.specs.FullText.{HasFullText, IsRefusal, join};
ghost use Rattle.trace_reader.specs.declared.error.TraceRefusal.{TraceRefusal};
ghost use Rattle.trace_reader.specs.inner.Items.{MayFollow, IsAdded};

use super::error::TraceRefusal;
use super::item::{Item, read_item};
use fields::field_laws;
use job::line_len;
use meaning::{Inputs, Record, Records};
use std::alloc::{AllocError, Global};

/// The lines of a full text.
#[derive(Drop)]
pub(super) struct Lines {
    /// The inputs, in order.
    pub(super) inputs: Inputs,
    /// The records, in order.
    pub(super) records: Records,
}

/// Whether the next record is steps of the thread whose steps the last one is.
fn joins(last: &Record, next: &Record) -> bool
    ensures { result ≡ join last.now next.now }
{
    match (last, next) {
        (Record::Steps { t, .. }, Record::Steps { t: u, .. }) => t == u,
        _ => false,
    }
}

impl Lines {
    /// Whether the item may stand behind these lines.
    fn takes(&self, item: &Item) -> bool
        ensures { IsTrue result ↔ MayFollow self.now.records item.now }
    {
        match item {
            Item::Given(_) => self.records.is_empty(),
            Item::Recorded(record) => match self.records.as_slice().last() {
                None => true,
                Some(last) => !joins(last, record),
            },
        }
    }

    /// Adds the item behind these lines.
    fn add(&mut self, item: Item) -> Result<(), AllocError>
        ensures { OnOk result (IsAdded self.old.inputs self.old.records item self.new.inputs self.new.records) }
    {
        match item {
            Item::Given(word) => self.inputs.push(word),
            Item::Recorded(record) => self.records.push(record),
        }
    }
}

/// The inputs and the records of the trace that has this full text.
///
/// # Errors
///
/// `Line` exactly where the text is no trace's, with the first line that no trace's full text has there;
/// and `Memory`.
pub(super) fn read_lines(alloc: Global, bytes: &[u8]) -> Result<Lines, TraceRefusal>
    requires { length bytes.now < 2 ^ 31 }
    ensures found { IfOk result (λ lines. HasFullText lines.inputs lines.records bytes.now) }
    ensures refused { IfErr result (IsRefusal bytes.now) }
{
    field_laws();
    let mut lines = Lines {
        inputs: Inputs::new(alloc),
        records: Records::new(alloc),
    };
    let mut rest = bytes;
    let mut number: u32 = 0;
    while !rest.is_empty() {
        let (line, after) = rest.split_at(line_len(rest));
        number += 1;
        let Some(item) = read_item(line) else {
            return Err(TraceRefusal::Line { n: number });
        };
        if !lines.takes(&item) {
            return Err(TraceRefusal::Line { n: number });
        }
        lines.add(item)?;
        rest = after;
    }
    Ok(lines)
}
