//! Reading a script, line by line.
ghost use Rattle.std.specs.Prelude.{◌≡◌, ℤ, ◌+◌, ◌^◌, ◌<◌, ◌≤◌, List, ◌++◌, ◌⊎◌, length, Result, IfOk, IfErr, OnOk};
ghost use Rattle.script.specs.Script.{IsScript, AreInputs, IsInputLine, IsRefusal, RefusesInputs, Has, HasInputs, line_events, line_inputs, line_turns, greatest_turns};
ghost use Rattle.script.specs.declared.error.ScriptRefusal.{ScriptRefusal};
ghost use Rattle.script.specs.inner.Reading.{IsReading, line_of};
ghost use Rattle.script.specs.inner.Says.{Says};

use super::error::ScriptRefusal;
use super::grammar::{GREATEST_TURNS, Line, read_line};
use fields::field_laws;
use job::{content_of, line_len};
use meaning::{Events, Inputs};
use std::alloc::{AllocError, Global};

/// What a script gives a run.
#[derive(Drop)]
pub struct Script {
    /// The inputs, in order.
    pub inputs: Inputs,
    /// The events, in order.
    pub events: Events,
}

/// The lines read so far.
#[derive(Drop)]
struct Lines {
    /// Their inputs.
    inputs: Inputs,
    /// Their events; once the turns are too many, no further ones.
    events: Events,
    /// Their turns.
    turns: u64,
}

impl Lines {
    /// Adds a line.
    fn add(&mut self, alloc: Global, line: Line<'_>) -> Result<(), AllocError>
        requires { self.old.turns + line_turns (line_of line) < 2 ^ 64 }
        ensures turns { OnOk result (self.new.turns ≡ self.old.turns + line_turns (line_of line.entry)) }
        ensures inputs { OnOk result (self.new.inputs ≡ self.old.inputs ++ line_inputs (line_of line.entry)) }
        ensures events { OnOk result (self.new.turns ≤ greatest_turns
            → self.new.events ≡ self.old.events ++ line_events (line_of line.entry)) }
    {
        self.turns += line.turns();
        line.push_input(&mut self.inputs)?;
        if self.turns <= u64::from(GREATEST_TURNS) {
            line.push_events(alloc, &mut self.events)?;
        }
        Ok(())
    }
}

/// The inputs and the events of a script, in order.
///
/// # Errors
///
/// `Line` exactly where a line is no line of a script, with the first such; `TooLong` exactly where
/// every line is one and there are more than 4,000,000 turns; and `Memory`.
pub fn read_script(alloc: Global, bytes: &[u8]) -> Result<Script, ScriptRefusal>
    requires { length bytes.now < 2 ^ 31 }
    ensures found { IfOk result (λ script. IsScript bytes.now script.inputs script.events) }
    ensures refused { IfErr result (IsRefusal bytes.now) }

    // Each answer comes wherever its case holds, unless memory runs out.
    ensures exact { (answer : Result Script ScriptRefusal) → Has bytes.now answer
        → (result ≡ answer) ⊎ (result ≡ Err ScriptRefusal.Memory) }
{
    field_laws();
    let lines = read_lines(alloc, bytes)?;
    if lines.turns > u64::from(GREATEST_TURNS) {
        return Err(ScriptRefusal::TooLong);
    }
    Ok(Script {
        inputs: lines.inputs,
        events: lines.events,
    })
}

/// Reads every line.
fn read_lines(alloc: Global, bytes: &[u8]) -> Result<Lines, ScriptRefusal>
    requires { length bytes.now < 2 ^ 31 }
    ensures found { IfOk result (λ read. Says bytes.now read.inputs read.events read.turns) }
    ensures refused { IfErr result (IsRefusal bytes.now) }
{
    let mut lines = Lines {
        inputs: Inputs::new(alloc),
        events: Events::new(alloc),
        turns: 0,
    };
    let mut rest = bytes;
    let mut number: u32 = 0;
    while !rest.is_empty() {
        let (line, after) = rest.split_at(line_len(rest));
        number += 1;
        let Some(line) = read_line(content_of(line)) else {
            return Err(ScriptRefusal::Line { n: number });
        };
        lines.add(alloc, line)?;
        rest = after;
    }
    Ok(lines)
}

/// What this text says where there are inputs alone. None exactly where it is no line of those.
fn read_input_line(text: &[u8]) -> Option<Line<'_>>
    ensures { IsReading IsInputLine text.now result }
{
    let line = read_line(text)?;
    if line.is_input() { Some(line) } else { None }
}

/// The inputs of a script of inputs alone: `in` lines, empty lines and comments.
///
/// # Errors
///
/// `Line` exactly where a line is none of these, with the first such; and `Memory`.
pub fn read_inputs(alloc: Global, bytes: &[u8]) -> Result<Inputs, ScriptRefusal>
    requires { length bytes.now < 2 ^ 31 }
    ensures found { IfOk result (AreInputs bytes.now) }
    ensures refused { IfErr result (RefusesInputs bytes.now) }

    // Each answer comes wherever its case holds, unless memory runs out.
    ensures exact { (answer : Result (List ℤ) ScriptRefusal) → HasInputs bytes.now answer
        → (result ≡ answer) ⊎ (result ≡ Err ScriptRefusal.Memory) }
{
    field_laws();
    collect_inputs(alloc, bytes)
}

/// Reads every line of inputs alone.
fn collect_inputs(alloc: Global, bytes: &[u8]) -> Result<Inputs, ScriptRefusal>
    requires { length bytes.now < 2 ^ 31 }
    ensures found { IfOk result (AreInputs bytes.now) }
    ensures refused { IfErr result (RefusesInputs bytes.now) }
{
    let mut inputs = Inputs::new(alloc);
    let mut rest = bytes;
    let mut number: u32 = 0;
    while !rest.is_empty() {
        let (line, after) = rest.split_at(line_len(rest));
        number += 1;
        let Some(line) = read_input_line(content_of(line)) else {
            return Err(ScriptRefusal::Line { n: number });
        };
        line.push_input(&mut inputs)?;
        rest = after;
    }
    Ok(inputs)
}
