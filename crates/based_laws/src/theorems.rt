//! The laws of values and accesses.

ghost use Rattle.based_laws.specs.Theorems.{RunsAreBased, ValuesStayKnown};

/// Each event keeps that every value is known and that each frame behind its `Enter` has its object, of any
/// state of which this holds.
pub fn values_stay_known()
    ensures { ValuesStayKnown }
{}

/// Behind each event of a run every value is known by the objects that were made so far, and each get and
/// put of the safe store is at a word of a start, or inside the bounds of a pointer that its thread touched
/// in the turn before.
pub fn runs_are_based()
    ensures { RunsAreBased }
{}
