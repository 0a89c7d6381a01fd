//! The rules of typing.

ghost use Rattle.std.specs.Prelude.{◌≡◌};
ghost use Rattle.c_scope.specs.Numbers.{number_of};

/// A rule of typing, in the order in which a construct tests them.
#[derive(Clone, Copy, Debug, PartialEq, Eq)]
pub enum Rule {
    /// 1: a name has no declaration in scope, or a built-in stands elsewhere than as the name in a call.
    Undeclared,
    /// 2: a name is declared twice in one scope, or a built-in or a type name as something else.
    Redeclared,
    /// 3: a type has no units, an array no bound in range, or a type too many parts.
    Unsized,
    /// 4: too many tags, a tag or a member twice, or a struct's body out of place.
    Tag,
    /// 5: there is no function `main` of type `int (void)`.
    NoMain,
    /// 6: a function is used and not defined.
    Undefined,
    /// 7: the types of operands don't fit.
    Operands,
    /// 8: a value has no implicit conversion to its target.
    Unconverted,
    /// 9: a cast to or from a type that is no scalar.
    Cast,
    /// 10: a call of what is no function, or with another number of arguments.
    Call,
    /// 11: a member of what has no such member.
    Member,
    /// 12: a dereference or an index of what is no pointer to a type with units.
    Pointer,
    /// 13: what is assigned or taken the address of is no lvalue.
    NotLvalue,
    /// 14: `break` or `continue` outside a loop.
    OutsideLoop,
    /// 15: `return` with a value in a `void` function, or without one in another.
    Return,
    /// 16: a bound or a global's initialiser isn't constant.
    NotConstant,
    /// 17: a condition isn't scalar.
    NotScalar,
    /// 18: an initialiser doesn't follow its type, or a declaration has a form that isn't allowed.
    Form,
}

impl Rule {
    /// Its number, from 1 to 18.
    pub fn number(self) -> u8
        ensures { result ≡ number_of self }
    {
        match self {
            Rule::Undeclared => 1,
            Rule::Redeclared => 2,
            Rule::Unsized => 3,
            Rule::Tag => 4,
            Rule::NoMain => 5,
            Rule::Undefined => 6,
            Rule::Operands => 7,
            Rule::Unconverted => 8,
            Rule::Cast => 9,
            Rule::Call => 10,
            Rule::Member => 11,
            Rule::Pointer => 12,
            Rule::NotLvalue => 13,
            Rule::OutsideLoop => 14,
            Rule::Return => 15,
            Rule::NotConstant => 16,
            Rule::NotScalar => 17,
            Rule::Form => 18,
        }
    }
}
