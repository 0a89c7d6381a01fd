//! A cursor over tokens.

ghost use Rattle.std.specs.Prelude.{◌≡◌, ◌<◌, ◌≤◌, ◌^◌, length};
ghost use Rattle.std.specs.Option.{option_copied};
ghost use Rattle.c_tree.specs.Marks.{kinds_of};
ghost use Rattle.c_readers.specs.inner.Parser as parser;
ghost use Rattle.c_readers.specs.inner.Reads.{Reads};

use crate::error::Failure;
use c_tokens::{Keyword, Kind, Mark, Token};
use std::marker::Model;

/// The tokens that are left to read.
#[derive(Drop)]
pub struct Cursor<'a> {
    tokens: &'a [Token],
}

impl<'a> Model for Cursor<'a> {
    ghost use Rattle.std.specs.Prelude.{◌<◌, ◌^◌, length, List};
    ghost use Rattle.c_tokens.specs.declared.token.Kind.{Kind};
    ghost use Rattle.c_tree.specs.Marks.{kinds_of};

    ghost Value = { List Kind };

    ghost view = { λ c. kinds_of c.tokens.now };

    ghost invariant = { λ c. length c.tokens.now < 2 ^ 31 };
}

/// Whether this is the mark.
#[tactic(auto, unfolding(crate::specs::inner::Parser::same_mark))]
pub(crate) fn is_mark(kind: &Kind, mark: Mark) -> bool
    ensures { result ≡ parser.is_mark mark kind.now }
{
    match kind {
        Kind::Mark(found) => *found == mark,
        _ => false,
    }
}

/// Whether this is the word.
#[tactic(auto, unfolding(crate::specs::inner::Parser::same_word))]
pub fn is_word(kind: &Kind, word: Keyword) -> bool
    ensures { result ≡ parser.is_word word kind.now }
{
    match kind {
        Kind::Word(found) => *found == word,
        _ => false,
    }
}

impl<'a> Cursor<'a> {
    /// A cursor at the first of these tokens.
    pub fn new(tokens: &'a [Token]) -> Cursor<'a>
        requires { length tokens.now < 2 ^ 31 }
        ensures { result ≡ kinds_of tokens.now }
    {
        Cursor { tokens }
    }

    /// How many tokens are left.
    pub fn left(&self) -> usize
        ensures { result ≡ length self.now }
    {
        self.tokens.len()
    }

    /// The next token.
    pub fn peek(&self) -> Option<&'a Kind>
        ensures { option_copied result ≡ parser.first self.now }
    {
        match self.tokens.first() {
            Some(token) => Some(&token.kind),
            None => None,
        }
    }

    /// The token behind the next.
    pub fn peek_behind(&self) -> Option<&'a Kind>
        ensures { option_copied result ≡ parser.first (parser.behind self.now) }
    {
        match self.tokens {
            [_, token, ..] => Some(&token.kind),
            _ => None,
        }
    }

    /// Goes on behind the next token.
    pub fn skip(&mut self)
        ensures { self.new ≡ parser.behind self.old }
    {
        if let [_, rest @ ..] = self.tokens {
            self.tokens = rest;
        }
    }

    /// Whether this mark comes next.
    pub fn sees(&self, mark: Mark) -> bool
        ensures { result ≡ parser.sees mark self.now }
    {
        match self.peek() {
            Some(kind) => is_mark(kind, mark),
            None => false,
        }
    }

    /// Whether this mark comes behind the next token.
    pub fn sees_behind(&self, mark: Mark) -> bool
        ensures { result ≡ parser.sees mark (parser.behind self.now) }
    {
        match self.peek_behind() {
            Some(kind) => is_mark(kind, mark),
            None => false,
        }
    }

    /// Takes the mark, if it comes next.
    #[tactic(auto, unfolding(crate::specs::inner::Parser::after))]
    pub fn eat(&mut self, mark: Mark) -> bool
        ensures found { result ≡ parser.sees mark self.old }
        ensures after { self.new ≡ parser.after mark self.old }
    {
        let found = self.sees(mark);
        if found {
            self.skip();
        }
        found
    }

    /// Takes the mark, which must come next.
    #[tactic(auto, unfolding(crate::specs::inner::Parser::expect, crate::specs::inner::Parser::after))]
    pub fn expect(&mut self, mark: Mark) -> Result<(), Failure>
        ensures { Reads (parser.expect mark self.old) result self.new }
    {
        if self.eat(mark) {
            Ok(())
        } else {
            Err(Failure::Mismatch)
        }
    }

    /// Takes each of this mark that comes next, and answers how many they are.
    pub fn run(&mut self, mark: Mark) -> u32
        ensures is { parser.run mark self.old ≡ (result, self.new) }
        ensures few { result < 2 ^ 31 }
    {
        let left = self.tokens.len() as u32;
        for count in 0..left {
            if !self.eat(mark) {
                return count;
            }
        }
        left
    }

    /// The tokens that are left, to come back to.
    pub fn place(&self) -> &'a [Token]
        ensures is { kinds_of result.now ≡ self.now }
        ensures few { length result.now < 2 ^ 31 }
    {
        self.tokens
    }

    /// Goes back to a place that the cursor was at.
    pub fn go_back(&mut self, place: &'a [Token])
        requires { length place.now < 2 ^ 31 }
        ensures { self.new ≡ kinds_of place.now }
    {
        self.tokens = place;
    }
}
