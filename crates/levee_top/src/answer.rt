//! The way of a job: from its bytes to the status and the text of its run.
ghost use Rattle.std.specs.Prelude.{◌≡◌, ◌≤◌, length, IfOk, IfErr};
ghost use Rattle.core_ir.specs.Valid.{IsValid};
ghost use Rattle.machine.specs.Stands.{Stands};
ghost use Rattle.machine.specs.Trace.{trace_of};
ghost use Rattle.machine.specs.ValidCode.{ValidCode};
ghost use Rattle.meaning.specs.Records.{is_violated};
ghost use Rattle.trace.specs.Text.{run_text};
ghost use Rattle.levee_top.specs.Outcome.{greatest_job, steps_of, status_of};
ghost use Rattle.levee_top.specs.inner.Failure.{Runs, RunsLegally, FailsAt};

use super::failure::Failure;
use super::refusal::Refusal;
use super::source::compile;
use super::status::Status;
use core_ir::Program;
use instrument::instrument;
use job::cut_job;
use machine::Code;
use run_laws::runs_are_good;
use safe_locals::safe_all;
use script::{Script, read_script};
use sensitivity::classes;
use std::alloc::{AllocError, Global};
use system::System;
use trace::Trace;

/// A status, and the text to write with it.
#[derive(Debug, Drop)]
pub struct Answer {
    pub status: Status,
    pub text: Vec<u8>,
}

const RUN_THREADS: u8 = 16;

const RUN_SLOTS: u32 = 1_048_576;

/// What a job gives.
///
/// # Errors
///
/// `Refused` exactly where the job is refused, with why, and `Memory`.
pub fn answer_job(alloc: Global, full: bool, job: &[u8]) -> Result<Answer, Failure>
    requires { length job.now ≤ greatest_job }
    ensures runs { IfOk result (λ answer. Runs full job.now answer.status answer.text.items) }
    ensures fails { IfErr result (FailsAt job.now) }
{
    let cut = cut_job(job).ok_or(Refusal::Job)?;
    let program = compile(alloc, &job[..cut.source_end])?;
    let script = read_script(alloc, &job[cut.script_start..])?;
    Ok(answer_run(alloc, full, &program, &script)?)
}

/// The run of a program over inputs and events.
fn answer_run(
    alloc: Global,
    full: bool,
    program: &Program,
    script: &Script,
) -> Result<Answer, AllocError>
    requires { IsValid program.now }
    ensures { IfOk result (λ answer.
        RunsLegally full program.now script.now.inputs script.now.events answer.status answer.text.items) }
{
    runs_are_good();
    let code = protect(alloc, program)?;
    let trace = run(alloc, &code, script)?;
    answer_trace(full, &trace)
}

/// The status and the text of a trace.
fn answer_trace(full: bool, trace: &Trace) -> Result<Answer, AllocError>
    ensures { IfOk result (λ answer. (answer.status ≡ status_of (is_violated trace.now.records))
        × (answer.text.items ≡ run_text full trace.now.inputs trace.now.records)) }
{
    Ok(Answer {
        status: status_of(trace),
        text: trace.text(full)?,
    })
}

/// The code that stands for a program.
fn protect(alloc: Global, program: &Program) -> Result<Code, AllocError>
    requires { IsValid program.now }
    ensures stands { IfOk result (λ code. Stands code program.now) }
    ensures valid { IfOk result ValidCode }
{
    let classes = classes(alloc, &program.structs)?;
    let safe = safe_all(alloc, program)?;
    instrument(alloc, program, &classes, &safe)
}

/// The trace of the run of code over inputs and events.
fn run(alloc: Global, code: &Code, script: &Script) -> Result<Trace, AllocError>
    requires { ValidCode code.now }
    ensures inputs { IfOk result (λ trace. trace.inputs ≡ script.now.inputs) }
    ensures records { IfOk result (λ trace.
        trace.records ≡ trace_of (steps_of code.now script.now.inputs script.now.events)) }
{
    let mut system = System::open(alloc, code, &script.inputs, RUN_THREADS, RUN_SLOTS)?;
    let mut trace = Trace::new(alloc);
    trace.start(&script.inputs)?;
    system.run(code, &script.events, &mut trace)?;
    Ok(trace)
}

/// The status of a run.
fn status_of(trace: &Trace) -> Status
    ensures { result ≡ status_of (is_violated trace.now.records) }
{
    if trace.violated() {
        Status::Violation
    } else {
        Status::Done
    }
}
