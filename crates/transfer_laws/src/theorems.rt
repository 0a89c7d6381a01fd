//! The laws of transfers that hold of any code.

ghost use Rattle.transfer_laws.specs.Theorems.{StartsAreFound, ThreadsAreBracketed, TransfersArrive, TransfersStand};

/// The calls, starts and returns of each thread of a run are bracketed by depth, and each return goes behind
/// its call.
pub fn threads_are_bracketed()
    ensures { ThreadsAreBracketed }
{}

/// Each start of a run goes to the function that its thread found at its start word.
pub fn starts_are_found()
    ensures { StartsAreFound }
{}

/// Each transfer of a run stands at the place that it says.
pub fn transfers_stand()
    ensures { TransfersStand }
{}

/// The next turn of its thread stands where the transfer leads.
pub fn transfers_arrive()
    ensures { TransfersArrive }
{}
