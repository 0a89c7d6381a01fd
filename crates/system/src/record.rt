//! What a turn adds to the trace.
ghost use Rattle.std.specs.Prelude.{◌≡◌, ◌+◌, ◌++◌, ◌≤◌, ◌<◌, ◌∷◌, [], map, length, IfSome, option_to_list};
ghost use Rattle.meaning.specs.Action.{Fits};
ghost use Rattle.meaning.specs.Records.{added_all, did, or_one_step};
ghost use Rattle.meaning.specs.declared.record.Record.{Record};
ghost use Rattle.trace.specs.Records.{IsRecord};

use meaning::{Action, Note, Record, Reply};
use trace::Trace;

/// Records a turn of a thread: its action with its reply unless that is nothing or a halt, then its notes, and a step
/// where there is neither.
pub fn record_turn(trace: &mut Trace, t: u8, action: Action, reply: Reply, notes: &[Note])
    requires thread { t < 16 }
    requires fits { Fits action reply }
    requires spare { length notes.now + 1 ≤ trace.old.spare }
    ensures records { trace.new.records
        ≡ added_all trace.old.records (or_one_step t (did t action reply ++ map (Record.Noted t) notes.now)) }
    ensures inputs { trace.new.inputs ≡ trace.old.inputs }
{
    match did(t, action, reply) {
        Some(did) => {
            trace.push(did);
            record_notes(trace, t, notes);
        }
        None if notes.is_empty() => trace.push(Record::Steps { t, n: 1 }),
        None => record_notes(trace, t, notes),
    }
}

/// What a turn did, unless that is nothing or a halt.
fn did(t: u8, action: Action, reply: Reply) -> Option<Record>
    requires thread { t < 16 }
    requires fits { Fits action reply }
    ensures did { option_to_list result ≡ did t action reply }
    ensures record { IfSome result IsRecord }
{
    match action {
        Action::Own | Action::Halt(_) => None,
        _ => Some(Record::Did { t, action, reply }),
    }
}

/// Records notes in their order.
fn record_notes(trace: &mut Trace, t: u8, notes: &[Note])
    requires thread { t < 16 }
    requires spare { length notes.now ≤ trace.old.spare }
    ensures records { trace.new.records ≡ added_all trace.old.records (map (Record.Noted t) notes.now) }
    ensures inputs { trace.new.inputs ≡ trace.old.inputs }
{
    for note in notes {
        trace.push(Record::Noted { t, note: *note });
    }
}
