//! What ends the way of a job before its run.
ghost use Rattle.std.specs.Prelude.{◌≡◌};
ghost use Rattle.levee_top.specs.declared.failure.Failure.TheVariants.{Refused, Memory};
ghost use Rattle.levee_top.specs.inner.Failure.{read_failure, lex_failure, parse_failure, check_failure, elab_failure, script_failure};

use super::refusal::Refusal;
use c_parser::ParseRefusal;
use c_tokens::LexRefusal;
use c_typing::CheckRefusal;
use elab::ElabRefusal;
use lv_base::ReadEnd;
use script::ScriptRefusal;
use std::alloc::AllocError;

/// Why a step has nothing to hand to the next one.
#[derive(Clone, Copy, Debug, PartialEq, Eq)]
pub enum Failure {
    /// The words or the input are refused.
    Refused(Refusal),
    /// The source failed, and its count of faults rose.
    Fault,
    /// No memory was left.
    Memory,
}

impl From<Refusal> for Failure {
    ghost from_gives = { λ refusal failure. failure ≡ Refused refusal };

    fn from(refusal: Refusal) -> Failure {
        Failure::Refused(refusal)
    }
}

impl From<AllocError> for Failure {
    ghost from_gives = { λ _ failure. failure ≡ Memory };

    fn from(_error: AllocError) -> Failure {
        Failure::Memory
    }
}

impl From<ReadEnd> for Failure {
    ghost from_gives = { λ end failure. failure ≡ read_failure end };

    fn from(end: ReadEnd) -> Failure {
        match end {
            ReadEnd::Fault => Failure::Fault,
            ReadEnd::Long => Failure::Refused(Refusal::Job),
            ReadEnd::Memory => Failure::Memory,
        }
    }
}

impl From<LexRefusal> for Failure {
    ghost from_gives = { λ refusal failure. failure ≡ lex_failure refusal };

    fn from(refusal: LexRefusal) -> Failure {
        match refusal {
            LexRefusal::Byte { line } => Failure::Refused(Refusal::Byte { line }),
            LexRefusal::Number { line } => Failure::Refused(Refusal::Number { line }),
            LexRefusal::Text { line } => Failure::Refused(Refusal::Text { line }),
            LexRefusal::Comment { line } => Failure::Refused(Refusal::Comment { line }),
            LexRefusal::Memory => Failure::Memory,
        }
    }
}

impl From<ParseRefusal> for Failure {
    ghost from_gives = { λ refusal failure. failure ≡ parse_failure refusal };

    fn from(refusal: ParseRefusal) -> Failure {
        match refusal {
            ParseRefusal::Syntax { item } => Failure::Refused(Refusal::Syntax { item }),
            ParseRefusal::Memory => Failure::Memory,
        }
    }
}

impl From<CheckRefusal> for Failure {
    ghost from_gives = { λ refusal failure. failure ≡ check_failure refusal };

    fn from(refusal: CheckRefusal) -> Failure {
        match refusal {
            CheckRefusal::Rule { item, rule } => Failure::Refused(Refusal::Type { item, rule }),
            CheckRefusal::Memory => Failure::Memory,
        }
    }
}

impl From<ElabRefusal> for Failure {
    ghost from_gives = { λ refusal failure. failure ≡ elab_failure refusal };

    fn from(refusal: ElabRefusal) -> Failure {
        match refusal {
            ElabRefusal::Limit { which } => Failure::Refused(Refusal::Limit { which }),
            ElabRefusal::Memory => Failure::Memory,
        }
    }
}

impl From<ScriptRefusal> for Failure {
    ghost from_gives = { λ refusal failure. failure ≡ script_failure refusal };

    fn from(refusal: ScriptRefusal) -> Failure {
        match refusal {
            ScriptRefusal::Line { n } => Failure::Refused(Refusal::ScriptLine { n }),
            ScriptRefusal::TooLong => Failure::Refused(Refusal::ScriptLong),
            ScriptRefusal::Memory => Failure::Memory,
        }
    }
}
