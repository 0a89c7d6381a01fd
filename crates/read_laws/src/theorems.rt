//! The law of transfers.

ghost use Rattle.read_laws.specs.Theorems.{TransfersAreGood};

/// In every run each call through a pointer goes to the function that was last stored where its pointer was
/// read, each start to the one that was found, and each return goes behind its call.
pub fn transfers_are_good()
    ensures { TransfersAreGood }
{}
