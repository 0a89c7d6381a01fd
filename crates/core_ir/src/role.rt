//! What an instruction is to the rules on order.

ghost use Rattle.std.specs.Prelude.{◌≡◌, ◌↔◌, Some, IsTrue};

/// What an instruction is to the rules on the order of instructions, and to the analysis of frame locals.
#[derive(Clone, Copy, Debug, PartialEq, Eq)]
pub enum Role {
    /// Nothing that these rules speak of.
    Plain,
    /// A number.
    Const { v: i64 },
    /// The address of frame local `v`.
    Local { v: u32 },
    /// `p` and `k` units.
    Shifted { p: u32, k: u32 },
    /// `p` and `i` times `s` units.
    Indexed { p: u32, i: u32, s: u32 },
    /// The value of slot `s`.
    Slot { s: u32 },
    /// A conversion of `a`.
    Cast { a: u32 },
    /// A test of address `p`.
    Touch { p: u32 },
    /// A load from address `p`.
    Load { p: u32 },
    /// A store to address `p`.
    Store { p: u32 },
    /// A lock or an unlock at address `p`.
    Lock { p: u32 },
    /// A call of what register `c` has.
    Indirect { c: u32 },
    Enter,
    Leave,
    Return,
    Fork,
    StartArg { t: u32 },
    StartFn { t: u32, f: u32 },
}

/// Whether there is an instruction, and it enters a frame.
pub(crate) fn is_enter(role: Option<Role>) -> bool
    ensures { IsTrue result ↔ (role ≡ Some Role.Enter) }
{
    matches!(role, Some(Role::Enter))
}

/// Whether there is an instruction, and it leaves a frame.
pub(crate) fn is_leave(role: Option<Role>) -> bool
    ensures { IsTrue result ↔ (role ≡ Some Role.Leave) }
{
    matches!(role, Some(Role::Leave))
}

/// Whether there is an instruction, and it returns.
pub(crate) fn is_return(role: Option<Role>) -> bool
    ensures { IsTrue result ↔ (role ≡ Some Role.Return) }
{
    matches!(role, Some(Role::Return))
}
