//! What names stand for, and what is known of values.

/// The calls that the language has from the start.
#[derive(Clone, Copy, Debug, PartialEq, Eq)]
pub enum BuiltIn {
    Spawn,
    Join,
    Lock,
    Unlock,
    Print,
    Input,
    Malloc,
    Free,
}

/// What a name stands for.
#[derive(Clone, Copy, Debug, PartialEq, Eq)]
pub enum Entity {
    /// A global variable, by its number in order of declaration.
    Global(u32),
    /// A parameter or variable of the function around it: the parameters first, then in order of declaration.
    Local(u32),
    /// A parameter, as later bounds of its list see it. Such a bound isn't constant.
    Parameter,
    /// The one function of that name.
    Function,
    BuiltIn(BuiltIn),
}

/// Whether an expression is an integer constant expression, and its value.
#[derive(Clone, Copy, Debug, PartialEq, Eq)]
pub enum Constant {
    /// Another form stands in it.
    Other,
    /// It is built of the forms of one, but its evaluation meets a zero divisor.
    Divides,
    Value(i64),
}
