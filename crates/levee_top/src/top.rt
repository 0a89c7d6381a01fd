//! The top call.
ghost use Rattle.std.specs.Prelude.{◌≡◌, ◌≤◌, ◌⊎◌, ◌++◌, ℕ, List, Some, length, map, string_bytes, IfOk, IfErr, OnOk, IsErrOf};
ghost use Rattle.std.specs.Io.KnownBytes.{Appends, Keeps, IsAtEnd};
ghost use Rattle.lv_base.specs.Counts.{Rose};
ghost use Rattle.lv_base.specs.Whole.{AppendsPrefix};
ghost use Rattle.levee_top.specs.declared.refusal.Refusal.TheVariants as refusal;
ghost use Rattle.levee_top.specs.declared.status.Status.{Status};
ghost use Rattle.levee_top.specs.Command.{IsNoCommand};
ghost use Rattle.levee_top.specs.Levee.{IsWhole, IsAcceptance, Gives, Writes, WritesPrefix};
ghost use Rattle.levee_top.specs.Outcome.{Outcome};
ghost use Rattle.levee_top.specs.Refusal.{refusal_text, IsRefused};
ghost use Rattle.levee_top.specs.inner.Failure.{Ends};

use super::answer::{Answer, answer_job};
use super::command::Command;
use super::failure::Failure;
use super::refusal::Refusal;
use super::status::Status;
use super::theorems::outcomes_are_unique;
use lv_base::{Sink, Source, Trouble, WriteEnd, read_all, write_all};
use std::alloc::{AllocError, Global};

const GREATEST_JOB: usize = 1_048_576;

/// What a command gives of the job that the source holds.
fn answer_words<S: Source>(
    alloc: Global,
    words: &[String],
    source: &mut S,
) -> Result<Answer, Failure>
    ensures gives { IfOk result (λ answer. Gives (map string_bytes words.now)
        (S.left source.old) (S.bytes_read source.old) (S.bytes_read source.new)
        answer.status answer.text.items) }
    ensures ends { IfErr result (Ends (map string_bytes words.now)
        (S.left source.old) (S.bytes_read source.old) (S.bytes_read source.new)) }
    ensures end { OnOk result (IsAtEnd (S.left source.new)) }
    ensures fault { IsErrOf result Failure.Fault
        → Rose (S.faults source.old) (S.faults source.new) }
    ensures command { IsErrOf result Failure.Fault → IsNoCommand (map string_bytes words.now) → ⊥ }
    ensures counted { S.faults source.old ≤ S.faults source.new }
{
    let command = Command::from_words(words).ok_or(Refusal::Usage)?;
    let job = read_all(alloc, source, GREATEST_JOB)?;
    match command {
        Command::Run { full } => answer_job(alloc, full, &job),
    }
}

/// What the words and the source give, be it a refusal.
fn answer<S: Source>(alloc: Global, words: &[String], source: &mut S) -> Result<Answer, Trouble>
    ensures gives { IfOk result (λ answer. Gives (map string_bytes words.now)
        (S.left source.old) (S.bytes_read source.old) (S.bytes_read source.new)
        answer.status answer.text.items) }
    ensures end { IfOk result (λ answer. IsAcceptance answer.status → IsAtEnd (S.left source.new)) }
    ensures fault { IsErrOf result Trouble.Failed
        → Rose (S.faults source.old) (S.faults source.new) }
    ensures command { IsErrOf result Trouble.Failed → IsNoCommand (map string_bytes words.now) → ⊥ }
    ensures counted { S.faults source.old ≤ S.faults source.new }
{
    match answer_words(alloc, words, source) {
        Ok(answer) => Ok(answer),
        Err(Failure::Refused(refusal)) => told(alloc, refusal),
        Err(Failure::Fault) => Err(Trouble::Failed),
        Err(Failure::Memory) => Err(Trouble::Memory),
    }
}

/// A refusal's answer, with want of memory as trouble.
fn told(alloc: Global, refusal: Refusal) -> Result<Answer, Trouble>
    ensures told { IfOk result (λ answer. IsRefused refusal answer.status answer.text.items) }
    ensures not_failed { ¬ IsErrOf result Trouble.Failed }
{
    match refusal.answer(alloc) {
        Ok(answer) => Ok(answer),
        Err(AllocError) => Err(Trouble::Memory),
    }
}

/// Writes the text, and answers the status where the whole text was written.
fn deliver<K: Sink>(sink: &mut K, text: &[u8], status: Status) -> Status
    requires { IsWhole status }
    ensures whole { IsWhole result → result ≡ status }
    ensures text { IsWhole result → Appends (K.contents sink.old) (K.contents sink.new) text.now }
    ensures prefix { AppendsPrefix (K.contents sink.old) (K.contents sink.new) text.now }
    ensures cause { (result ≡ status) ⊎ ((result ≡ Status.WriteFault) ⊎ (result ≡ Status.Memory)) }
    ensures fault { result ≡ Status.WriteFault → Rose (K.faults sink.old) (K.faults sink.new) }
    ensures counted { K.faults sink.old ≤ K.faults sink.new }
{
    match write_all(sink, text) {
        Ok(()) => status,
        Err(WriteEnd::Fault) => Status::WriteFault,
        Err(WriteEnd::Memory) => Status::Memory,
    }
}

/// Does what the words ask on the job that the source holds, writes its text to the sink and answers
/// its status.
///
/// The words `run` and `run --full` run a job, with its text in brief and in full; all others are
/// `Usage`. The order of refusals is: the words, the input's faults, the job, the tokens, the grammar and the
/// typing of its source, the limits of its program, its script.
pub fn levee<S: Source, K: Sink>(
    alloc: Global,
    words: &[String],
    source: &mut S,
    sink: &mut K,
) -> Status
    // The text written and the status are those of the outcome of the words and the input that was read:
    // the one that the source tells, where it tells one. A run is one legal history, its transfers are good and its
    // pointers are based on what the program made.
    ensures outcome { IsWhole result → Writes (map string_bytes words.now)
        (S.left source.old) (S.bytes_read source.old) (S.bytes_read source.new)
        (K.contents sink.old) (K.contents sink.new) result }
    // They are those of every outcome, so that each status comes exactly where its case holds.
    ensures exact { (input : List ℕ) (status : Status) (text : List ℕ)
        → S.left source.old ≡ Some input
        → Outcome (map string_bytes words.now) input status text
        → IsWhole result
        → (result ≡ status) × Appends (K.contents sink.old) (K.contents sink.new) text }
    ensures end { IsAcceptance result → IsAtEnd (S.left source.new) }

    // Usage and its line come for words that are no command alone, and exactly there but for faults of
    // the sink and want of memory.
    ensures usage { result ≡ Status.Usage → IsNoCommand (map string_bytes words.now) }
    ensures no_command { IsNoCommand (map string_bytes words.now)
        → (result ≡ Status.Usage) ⊎ ((result ≡ Status.WriteFault) ⊎ (result ≡ Status.Memory)) }
    ensures usage_line { result ≡ Status.Usage
        → Appends (K.contents sink.old) (K.contents sink.new) (refusal_text refusal.Usage) }

    // A read fault leaves nothing written, a write fault or want of memory nothing or a prefix of the
    // text.
    ensures read_fault { result ≡ Status.ReadFault
        → Rose (S.faults source.old) (S.faults source.new) }
    ensures unwritten { result ≡ Status.ReadFault
        → Keeps (K.contents sink.old) (K.contents sink.new) }
    ensures write_fault { result ≡ Status.WriteFault
        → Rose (K.faults sink.old) (K.faults sink.new) }
    ensures prefix { result ≡ Status.WriteFault → WritesPrefix (map string_bytes words.now)
        (S.left source.old) (S.bytes_read source.old) (S.bytes_read source.new)
        (K.contents sink.old) (K.contents sink.new) }
    ensures memory { result ≡ Status.Memory → Keeps (K.contents sink.old) (K.contents sink.new)
        ⊎ WritesPrefix (map string_bytes words.now)
        (S.left source.old) (S.bytes_read source.old) (S.bytes_read source.new)
        (K.contents sink.old) (K.contents sink.new) }
    ensures source_counted { S.faults source.old ≤ S.faults source.new }
    ensures sink_counted { K.faults sink.old ≤ K.faults sink.new }
{
    outcomes_are_unique();
    match answer(alloc, words, source) {
        Ok(answer) => deliver(sink, &answer.text, answer.status),
        Err(Trouble::Failed) => Status::ReadFault,
        Err(Trouble::Memory) => Status::Memory,
    }
}
