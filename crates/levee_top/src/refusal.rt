//! The refusals, in the order in which they are looked at, each with its line.
ghost use Rattle.std.specs.Prelude.{◌≡◌, ◌++◌, codes, decimal, OnOk, IfOk};
ghost use Rattle.levee_top.specs.Refusal.{limit_word, refusal_line, refusal_status, IsRefused};

use super::answer::Answer;
use super::status::Status;
use elab::LimitName;
use lv_base::push_number;
use std::alloc::{AllocError, Global};

const USAGE: &[u8] =
    b"usage: levee check | run [--full] | plain [--full] | gen K [--job] | threads T N [--full]";

/// Why words and an input aren't run. Of several the first is answered.
#[derive(Clone, Copy, Debug, PartialEq, Eq)]
pub enum Refusal {
    /// The words are no command.
    Usage,
    /// The input has too many bytes for a job, or no line that ends its source.
    Job,
    /// On line `line` of the source, from 1, stands a byte that begins nothing.
    Byte { line: u32 },
    /// There stands a run of letters, digits and `_` that begins with a digit and is no number.
    Number { line: u32 },
    /// There stands a quote that begins no character or string.
    Text { line: u32 },
    /// There stands a `/*` without a `*/` behind it.
    Comment { line: u32 },
    /// Behind `item` items of the source tokens are left, and no item begins them.
    Syntax { item: u32 },
    /// Item `item` of the source, from 0, is the first to break a rule: this one, from 1 to 18.
    Type { item: u32, rule: u8 },
    /// This is the first limit that the source's program passes.
    Limit { which: LimitName },
    /// Line `n` of the script, from 1, is the first that is none.
    ScriptLine { n: u32 },
    /// The script has more than 4,000,000 turns.
    ScriptLong,
}

impl Refusal {
    /// The answer that tells it: its status, and its line.
    ///
    /// # Errors
    ///
    /// `AllocError`, where no memory is left.
    pub fn answer(self, alloc: Global) -> Result<Answer, AllocError>
        ensures { IfOk result (λ answer. IsRefused self answer.status answer.text.items) }
    {
        let mut text = Vec::new(alloc);
        self.push_line(&mut text)?;
        text.push(b'\n')?;
        Ok(Answer {
            status: self.status(),
            text,
        })
    }

    /// Appends its line, without the LF that ends it.
    #[tactic(auto, using(std::proofs::Common::append_assoc))]
    fn push_line(self, text: &mut Vec<u8>) -> Result<(), AllocError>
        ensures { OnOk result (text.new.items ≡ text.old.items ++ refusal_line self) }
    {
        match self {
            Refusal::Usage => text.extend_from_slice(USAGE),
            Refusal::Job => text.extend_from_slice(b"refused job"),
            Refusal::Byte { line } => push_numbered(text, b"refused lex byte ", line),
            Refusal::Number { line } => push_numbered(text, b"refused lex number ", line),
            Refusal::Text { line } => push_numbered(text, b"refused lex text ", line),
            Refusal::Comment { line } => push_numbered(text, b"refused lex comment ", line),
            Refusal::Syntax { item } => push_numbered(text, b"refused syntax ", item),
            Refusal::Type { item, rule } => push_type(text, item, rule),
            Refusal::Limit { which } => push_words(text, b"refused limit ", limit_word(which)),
            Refusal::ScriptLine { n } => push_numbered(text, b"refused script ", n),
            Refusal::ScriptLong => text.extend_from_slice(b"refused script long"),
        }
    }

    fn status(self) -> Status
        ensures { result ≡ refusal_status self }
    {
        match self {
            Refusal::Usage => Status::Usage,
            _ => Status::Refused,
        }
    }
}

/// Appends two words.
#[tactic(auto, using(std::proofs::Common::append_assoc))]
fn push_words(text: &mut Vec<u8>, first: &[u8], second: &[u8]) -> Result<(), AllocError>
    ensures { OnOk result (text.new.items ≡ text.old.items ++ (first.now ++ second.now)) }
{
    text.extend_from_slice(first)?;
    text.extend_from_slice(second)
}

/// Appends words and a number.
#[tactic(auto, using(std::proofs::Common::append_assoc))]
fn push_numbered(text: &mut Vec<u8>, words: &[u8], n: u32) -> Result<(), AllocError>
    ensures { OnOk result (text.new.items ≡ text.old.items ++ (words.now ++ decimal n)) }
{
    text.extend_from_slice(words)?;
    push_number(text, i64::from(n))
}

/// Appends an item and the rule that it breaks.
#[tactic(auto, using(std::proofs::Common::append_assoc))]
fn push_type(text: &mut Vec<u8>, item: u32, rule: u8) -> Result<(), AllocError>
    ensures { OnOk result (text.new.items
        ≡ text.old.items ++ (codes "refused type " ++ decimal item ++ codes " " ++ decimal rule)) }
{
    push_numbered(text, b"refused type ", item)?;
    push_numbered(text, b" ", u32::from(rule))
}

/// The word of a limit.
fn limit_word(which: LimitName) -> &'static [u8]
    ensures { result.now ≡ limit_word which }
{
    match which {
        LimitName::Functions => b"functions",
        LimitName::Code => b"code",
        LimitName::Registers => b"registers",
        LimitName::Slots => b"slots",
        LimitName::Frame => b"frame",
        LimitName::Globals => b"globals",
    }
}
