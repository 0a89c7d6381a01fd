//! The fields of a line, one after another.
ghost use Rattle.std.specs.Prelude.{◌≡◌, ◌≤◌, [], ◌∷◌, decimal, MatchOption, IfSome};
ghost use Rattle.std.specs.Fmt.{signed_decimal};
ghost use Rattle.std.specs.Str.{bytes_eq};
ghost use Rattle.fields.specs.Fields.{fields_of};
ghost use Rattle.fields.specs.Reading as reader;
ghost use Rattle.fields.specs.Reading.{Reads};

use super::number::{read_number, read_u32, read_word};
use job::len_before;
use std::marker::Model;

/// The fields of a line that are left to read.
#[derive(Drop)]
pub struct Fields<'a> {
    /// What stands behind the last space; nothing where the last field was read.
    rest: Option<&'a [u8]>,
}

impl<'a> Model for Fields<'a> {
    ghost use Rattle.std.specs.Prelude.{ℕ, List};
    ghost use Rattle.fields.specs.inner.Rest.{left};

    ghost Value = { List (List ℕ) };

    ghost view = { λ f. left f.rest };
}

impl<'a> Fields<'a> {
    /// The fields of this text.
    pub fn of(text: &'a [u8]) -> Fields<'a>
        ensures { result ≡ fields_of text.now }
    {
        Fields { rest: Some(text) }
    }

    /// The next field.
    pub fn field(&mut self) -> Option<&'a [u8]>
        ensures { MatchOption result ((self.old ≡ []) × (self.new ≡ [])) (λ field. self.old ≡ field.now ∷ self.new) }
    {
        let text = self.rest?;
        let (field, rest) = text.split_at(len_before(text, b' '));
        self.rest = rest.strip_prefix(b" ");
        Some(field)
    }

    /// The next field as a number below 2^64.
    #[tactic(auto, unfolding(crate::specs::Reading::number))]
    pub fn number(&mut self) -> Option<u64>
        ensures reads { Reads (reader.number self.old) result self.new }
        ensures found { IfSome result (λ n. self.old ≡ decimal n ∷ self.new) }
    {
        let field = self.field()?;
        read_number(field)
    }

    /// The next field as a number below 2^32.
    #[tactic(auto, unfolding(crate::specs::Reading::small))]
    pub fn small(&mut self) -> Option<u32>
        ensures reads { Reads (reader.small self.old) result self.new }
        ensures found { IfSome result (λ n. self.old ≡ decimal n ∷ self.new) }
    {
        let field = self.field()?;
        read_u32(field)
    }

    /// The next field as a number in this range.
    #[tactic(auto, unfolding(crate::specs::Reading::within))]
    pub fn within(&mut self, low: u32, high: u32) -> Option<u32>
        ensures reads { Reads (reader.within low high self.old) result self.new }
        ensures found { IfSome result (λ n. self.old ≡ decimal n ∷ self.new) }
        ensures least { IfSome result (λ n. low ≤ n) }
        ensures greatest { IfSome result (λ n. n ≤ high) }
    {
        let number = self.small()?;
        if low <= number && number <= high {
            Some(number)
        } else {
            None
        }
    }

    /// The next field as a word.
    #[tactic(auto, unfolding(crate::specs::Reading::word))]
    pub fn word(&mut self) -> Option<i64>
        ensures reads { Reads (reader.word self.old) result self.new }
        ensures found { IfSome result (λ word. self.old ≡ signed_decimal word ∷ self.new) }
    {
        let field = self.field()?;
        read_word(field)
    }

    /// Nothing is left.
    #[tactic(auto, unfolding(crate::specs::Reading::end))]
    pub fn end(&mut self) -> Option<()>
        ensures reads { Reads (reader.end self.old) result self.new }
        ensures found { IfSome result (λ _. self.old ≡ []) }
    {
        match self.field() {
            None => Some(()),
            Some(_) => None,
        }
    }
}

/// Whether the field is this word.
pub fn is_word(field: &[u8], word: &[u8]) -> bool
    ensures { result ≡ bytes_eq field.now word.now }
{
    field == word
}
