//! Traces.
ghost use Rattle.std.specs.Prelude.{◌≡◌, ◌+◌, ◌-◌, ◌≤◌, ◌<◌, [], ◌∷◌, true, false, length, slice_get, Option, MatchOption, IsOk, IfOk, OnOk, OnErr};
ghost use Rattle.meaning.specs.Records.{added, joined, is_violated, names_check};
ghost use Rattle.meaning.specs.declared.record.Record.{Record};
ghost use Rattle.trace.specs.Records.{IsRecord};

use super::kept::KeptRecords;
use meaning::{Inputs, Note, Record, Stop};
use std::alloc::{AllocError, Global};
use std::marker::Model;

/// The inputs of a run, its records in order, and room for further ones. The last record is kept by itself, since
/// steps behind steps are added to it in place.
#[derive(Drop)]
pub struct Trace {
    pub(crate) alloc: Global,
    pub(crate) inputs: Inputs,
    pub(crate) earlier: KeptRecords,
    pub(crate) last: Option<Record>,
}

impl Model for Trace {
    ghost use Rattle.std.specs.Prelude.{◌≡◌, [], ◌++◌, None, option_to_list};
    ghost use Rattle.trace.specs.Records.{TraceView, trace_code};

    ghost Value = { TraceView };

    ghost coded = { trace_code };

    ghost view = { λ t. record {
      inputs = t.inputs;
      records = (t.earlier).records ++ option_to_list t.last;
      spare = (t.earlier).spare;
    } };

    ghost invariant = { λ t. t.last ≡ None → (t.earlier).records ≡ [] };
}

impl Trace {
    /// A trace without inputs and records.
    pub fn new(alloc: Global) -> Trace
        ensures inputs { result.inputs ≡ [] }
        ensures records { result.records ≡ [] }
    {
        Trace {
            alloc,
            inputs: Inputs::new(alloc),
            earlier: KeptRecords::new(alloc),
            last: None,
        }
    }

    /// Sets the inputs with which the full text begins.
    ///
    /// # Errors
    ///
    /// `AllocError`, which leaves the trace as it was.
    pub fn start(&mut self, inputs: &Inputs) -> Result<(), AllocError>
        requires { (self.old).records ≡ [] }
        ensures inputs { OnOk result ((self.new).inputs ≡ inputs.now) }
        ensures records { (self.new).records ≡ (self.old).records }
        ensures err { OnErr result ((self.new).inputs ≡ (self.old).inputs) }
    {
        self.inputs = Inputs::from_slice(self.alloc, inputs.as_slice())?;
        Ok(())
    }

    /// Makes room for so many further records.
    ///
    /// # Errors
    ///
    /// `AllocError`, which leaves the inputs and records as they were, as success does.
    pub fn reserve(&mut self, n: usize) -> Result<(), AllocError>
        ensures inputs { (self.new).inputs ≡ (self.old).inputs }
        ensures records { (self.new).records ≡ (self.old).records }
        ensures spare { OnOk result (n ≤ (self.new).spare) }
    {
        self.earlier.reserve(n)
    }

    /// Adds a record: steps behind steps of the same thread add their number to those, and every other record goes
    /// last.
    pub fn push(&mut self, item: Record)
        requires spare { 1 ≤ (self.old).spare }
        requires record { IsRecord item }
        ensures inputs { (self.new).inputs ≡ (self.old).inputs }
        ensures records { (self.new).records ≡ added (self.old).records item }
        ensures spare { (self.old).spare ≤ (self.new).spare + 1 }
    {
        match &mut self.last {
            None => self.last = Some(item),
            Some(last) => {
                if !joins(last, &item) {
                    self.earlier.push(last);
                    *last = item;
                }
            }
        }
    }

    /// How many records there are.
    pub fn len(&self) -> usize
        ensures { result ≡ length (self.now).records }
    {
        match self.last {
            None => self.earlier.len(),
            Some(_) => self.earlier.len() + 1,
        }
    }

    /// The record of this number, from 0, and None where there are no more than so many.
    pub fn get(&self, i: usize) -> Option<&Record>
        ensures { MatchOption result (length (self.now).records ≤ i) (λ r. slice_get (self.now).records i ≡ Option.Some r.now) }
    {
        if i < self.earlier.len() {
            Some(self.earlier.at(i))
        } else if i == self.earlier.len() {
            self.last.as_ref()
        } else {
            None
        }
    }

    /// Whether some stop names a check.
    pub fn violated(&self) -> bool
        ensures { result ≡ is_violated (self.now).records }
    {
        some_names_check(&self.earlier) || self.last.is_some_and(|last| names_check(&last))
    }
}

/// Adds steps to a last record that is steps of the same thread: whether they are. The new record tells first, since
/// most that aren't steps are known by it.
fn joins(last: &mut Record, item: &Record) -> bool
    ensures joined { result ≡ true → joined last.old item.now ≡ last.new ∷ [] }
    ensures behind { result ≡ false → joined last.old item.now ≡ last.old ∷ item.now ∷ [] }
    ensures same { result ≡ false → last.new ≡ last.old }
{
    match item {
        Record::Steps { t, n } => adds_steps(last, *t, *n),
        _ => false,
    }
}

/// The same for so many steps of a thread.
fn adds_steps(last: &mut Record, t: u8, n: u64) -> bool
    ensures joined { result ≡ true → joined last.old (Record.Steps t n) ≡ last.new ∷ [] }
    ensures behind { result ≡ false → joined last.old (Record.Steps t n) ≡ last.old ∷ Record.Steps t n ∷ [] }
    ensures same { result ≡ false → last.new ≡ last.old }
{
    match last {
        Record::Steps { t: u, n: m } if *u == t => {
            *m = m.saturating_add(n);
            true
        }
        _ => false,
    }
}

/// Whether some stop among the records names a check.
fn some_names_check(records: &KeptRecords) -> bool
    ensures { result ≡ is_violated (records.now).records }
{
    for i in 0..records.len() {
        if names_check(records.at(i)) {
            return true;
        }
    }
    false
}

fn names_check(entry: &Record) -> bool
    ensures { result ≡ names_check entry.now }
{
    matches!(
        entry,
        Record::Noted {
            note: Note::Stopped(Stop::Failed(_)),
            ..
        }
    )
}
