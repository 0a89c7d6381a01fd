//! What threads ask for, and what their turns tell.

ghost use Rattle.std.specs.Prelude.{IsTrue};
ghost use Rattle.machine.specs.ValidCode.{ValidCode};
ghost use Rattle.thread_engine.specs.Sound.{IsSound, LieAmongSlots, SlotsAreThere};

use crate::codes::{called_through_a_global, calls_itself, framed, started};
use icode::valid_code;
use machine::Code;
use meaning::{Action, Check, Entry, Note, Place, Reply, Stop, fits};
use std::process::Abort;
use std::test::Fail;
use thread_engine::{Notes, Thread};

/// Whether slots that answer lie among the greatest number of them.
fn slots_are_there(action: &Action, answer: &Reply) -> bool
    ensures { IsTrue result → SlotsAreThere action.now answer.now }
{
    match action {
        Action::Alloc(k) => lie_among(*k, answer),
        _ => true,
    }
}

/// Whether so many slots that answer do.
fn lie_among(k: u32, answer: &Reply) -> bool
    ensures { IsTrue result → LieAmongSlots k answer.now }
{
    match answer {
        Reply::Slot(Some(slot)) => u64::from(*slot) + u64::from(k) <= 1048576,
        _ => true,
    }
}

/// A turn of a thread, which asks for this, and is answered so. Gives what it tells.
fn turn(
    rt: &impl Abort,
    code: &Code,
    thread: &mut Thread,
    asked: Action,
    answer: Reply,
) -> Result<Notes, Fail>
    requires valid { ValidCode code.now }
    requires sound { IsSound code.now thread.old.thread }
    ensures sound { IsSound code.now thread.new.thread }
{
    let action = thread.next(code);
    assert_eq!(rt; action, asked);
    assert!(rt; fits(&action, &answer));
    assert!(rt; slots_are_there(&action, &answer));
    Ok(thread.resume(code, answer)?)
}

#[test]
fn a_call_through_a_global_goes_to_what_was_put(rt: HostRuntime) -> Result<(), Fail> {
    let code = called_through_a_global(rt.alloc())?;
    assert!(rt; valid_code(&code));
    let mut thread = Thread::open(rt.alloc(), &code, 0)?;
    let notes = turn(&rt, &code, &mut thread, Action::Own, Reply::Nothing)?;
    let call = Note::Call {
        depth: 1,
        f: 2,
        from: 0,
    };
    assert_eq!(rt; notes.as_slice(), [call].as_slice());
    turn(&rt, &code, &mut thread, Action::Own, Reply::Nothing)?;
    turn(&rt, &code, &mut thread, Action::Own, Reply::Nothing)?;
    turn(&rt, &code, &mut thread, Action::Look(2), Reply::Flag(true))?;
    let put = Action::Put(128, Entry::Code(0));
    turn(&rt, &code, &mut thread, put, Reply::Nothing)?;
    turn(&rt, &code, &mut thread, Action::Own, Reply::Nothing)?;
    turn(&rt, &code, &mut thread, Action::Look(2), Reply::Flag(true))?;
    let found = Reply::Found(Some(Entry::Code(0)));
    turn(&rt, &code, &mut thread, Action::Get(128), found)?;
    let notes = turn(&rt, &code, &mut thread, Action::Own, Reply::Nothing)?;
    let call = Note::Indirect {
        depth: 2,
        f: 0,
        from: 7,
        place: Place::At(128),
    };
    assert_eq!(rt; notes.as_slice(), [call].as_slice());
    turn(&rt, &code, &mut thread, Action::Own, Reply::Nothing)?;
    turn(&rt, &code, &mut thread, Action::Print(1), Reply::Nothing)?;
    let notes = turn(&rt, &code, &mut thread, Action::Own, Reply::Nothing)?;
    let back = Note::Return {
        depth: 2,
        f: 2,
        to: 8,
    };
    assert_eq!(rt; notes.as_slice(), [back].as_slice());
    turn(&rt, &code, &mut thread, Action::Own, Reply::Nothing)?;
    turn(&rt, &code, &mut thread, Action::Own, Reply::Nothing)?;
    let notes = turn(
        &rt,
        &code,
        &mut thread,
        Action::Store(96, 1),
        Reply::Nothing,
    )?;
    assert_eq!(rt; notes.as_slice(), [Note::End].as_slice());
    assert!(rt; !thread.is_live());
    Ok(())
}

#[test]
fn turns_that_ask_or_tell_are_not_quiet(rt: HostRuntime) -> Result<(), Fail> {
    let code = called_through_a_global(rt.alloc())?;
    assert!(rt; valid_code(&code));
    let mut thread = Thread::open(rt.alloc(), &code, 0)?;
    // the call of `main`, which is told
    assert!(rt; !thread.take_quiet_turn(&code));
    turn(&rt, &code, &mut thread, Action::Own, Reply::Nothing)?;
    // two addresses
    assert!(rt; thread.take_quiet_turn(&code));
    assert!(rt; thread.take_quiet_turn(&code));
    // a touch, which asks
    assert!(rt; !thread.take_quiet_turn(&code));
    turn(&rt, &code, &mut thread, Action::Look(2), Reply::Flag(true))?;
    Ok(())
}

#[test]
fn a_call_of_nothing_stops(rt: HostRuntime) -> Result<(), Fail> {
    let code = called_through_a_global(rt.alloc())?;
    assert!(rt; valid_code(&code));
    let mut thread = Thread::open(rt.alloc(), &code, 0)?;
    turn(&rt, &code, &mut thread, Action::Own, Reply::Nothing)?;
    turn(&rt, &code, &mut thread, Action::Own, Reply::Nothing)?;
    turn(&rt, &code, &mut thread, Action::Own, Reply::Nothing)?;
    turn(&rt, &code, &mut thread, Action::Look(2), Reply::Flag(true))?;
    let put = Action::Put(128, Entry::Code(0));
    turn(&rt, &code, &mut thread, put, Reply::Nothing)?;
    turn(&rt, &code, &mut thread, Action::Own, Reply::Nothing)?;
    turn(&rt, &code, &mut thread, Action::Look(2), Reply::Flag(true))?;
    turn(
        &rt,
        &code,
        &mut thread,
        Action::Get(128),
        Reply::Found(None),
    )?;
    let stop = Stop::Failed(Check::NotCode);
    let notes = turn(&rt, &code, &mut thread, Action::Halt(stop), Reply::Nothing)?;
    assert_eq!(rt; notes.as_slice(), [Note::Stopped(stop)].as_slice());
    assert!(rt; !thread.is_live());
    Ok(())
}

#[test]
fn the_call_past_the_most_frames_stops(rt: HostRuntime) -> Result<(), Fail> {
    let code = calls_itself(rt.alloc())?;
    assert!(rt; valid_code(&code));
    let mut thread = Thread::open(rt.alloc(), &code, 0)?;
    for depth in 1..4096 {
        let notes = turn(&rt, &code, &mut thread, Action::Own, Reply::Nothing)?;
        let call = Note::Call {
            depth,
            f: 0,
            from: 0,
        };
        assert_eq!(rt; notes.as_slice(), [call].as_slice());
    }
    let notes = turn(
        &rt,
        &code,
        &mut thread,
        Action::Halt(Stop::Depth),
        Reply::Nothing,
    )?;
    assert_eq!(rt; notes.as_slice(), [Note::Stopped(Stop::Depth)].as_slice());
    Ok(())
}

#[test]
fn a_thread_waits_for_its_start_and_begins(rt: HostRuntime) -> Result<(), Fail> {
    let code = started(rt.alloc())?;
    assert!(rt; valid_code(&code));
    let mut thread = Thread::open(rt.alloc(), &code, 1)?;
    assert!(rt; !thread.has_begun());
    turn(&rt, &code, &mut thread, Action::Get(66), Reply::Found(None))?;
    assert!(rt; !thread.has_begun());
    let found = Reply::Found(Some(Entry::Code(0)));
    turn(&rt, &code, &mut thread, Action::Get(66), found)?;
    assert!(rt; thread.has_begun());
    let notes = turn(&rt, &code, &mut thread, Action::Get(67), found)?;
    let start = Note::Start { f: 0, at: 66 };
    let told = Note::CodeSlot {
        depth: 0,
        slot: 0,
        f: 0,
    };
    assert_eq!(rt; notes.as_slice(), [start, told].as_slice());
    let notes = turn(
        &rt,
        &code,
        &mut thread,
        Action::Store(97, 1),
        Reply::Nothing,
    )?;
    assert_eq!(rt; notes.as_slice(), [Note::End].as_slice());
    Ok(())
}

#[test]
fn a_start_of_another_type_stops(rt: HostRuntime) -> Result<(), Fail> {
    let code = started(rt.alloc())?;
    assert!(rt; valid_code(&code));
    let mut thread = Thread::open(rt.alloc(), &code, 15)?;
    let found = Reply::Found(Some(Entry::Code(1)));
    let notes = turn(&rt, &code, &mut thread, Action::Get(94), found)?;
    let stop = Stop::Failed(Check::WrongType);
    assert_eq!(rt; notes.as_slice(), [Note::Stopped(stop)].as_slice());
    Ok(())
}

#[test]
fn a_frame_is_drawn_and_a_zero_divisor_stops(rt: HostRuntime) -> Result<(), Fail> {
    let code = framed(rt.alloc())?;
    assert!(rt; valid_code(&code));
    let mut thread = Thread::open(rt.alloc(), &code, 0)?;
    turn(
        &rt,
        &code,
        &mut thread,
        Action::Alloc(1),
        Reply::Slot(Some(1026)),
    )?;
    turn(&rt, &code, &mut thread, Action::Own, Reply::Nothing)?;
    turn(
        &rt,
        &code,
        &mut thread,
        Action::Halt(Stop::Divide),
        Reply::Nothing,
    )?;
    assert!(rt; !thread.is_live());
    let mut other = Thread::open(rt.alloc(), &code, 0)?;
    let notes = turn(&rt, &code, &mut other, Action::Alloc(1), Reply::Slot(None))?;
    assert_eq!(rt; notes.as_slice(), [Note::Stopped(Stop::Slots)].as_slice());
    Ok(())
}
