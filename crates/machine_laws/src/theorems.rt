//! The laws of runs.

ghost use Rattle.machine_laws.specs.Theorems.{RunsAreLegal};

/// What the records of a run show of the safe store is one legal history.
pub fn runs_are_legal()
    ensures { RunsAreLegal }
{}
