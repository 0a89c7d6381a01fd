//! Whether the counts of a function of code are within their limits.

ghost use Rattle.std.specs.Prelude.{◌↔◌, IsTrue};
ghost use Rattle.machine.specs.ValidCode.{CodeIsWithinLimits};

use machine::CodeFunction;

const MOST_PARAMETERS: usize = 8;

const MOST_INSTRUCTIONS: usize = 65_536;

const MOST_REGISTERS: u32 = 1_024;

const MOST_SLOTS: u32 = 1_024;

const MOST_FRAME_UNITS: u32 = 16_384;

/// Whether the counts of a function are within their limits.
pub(crate) fn is_within_limits(function: &CodeFunction) -> bool
    ensures { IsTrue result ↔ CodeIsWithinLimits function.now }
{
    let parameters = function.ty.params.len();
    if parameters > MOST_PARAMETERS || parameters > function.slots as usize {
        return false;
    }
    if function.slots > MOST_SLOTS || function.frame_units > MOST_FRAME_UNITS {
        return false;
    }
    function.body.len() <= MOST_INSTRUCTIONS && function.registers <= MOST_REGISTERS
}
