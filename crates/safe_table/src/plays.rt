//! What each kind of step tells its seat.
ghost use Rattle.std.specs.Prelude.{ℕ};
ghost use Rattle.meaning.specs.declared.value.Entry.{Entry};
ghost use Rattle.meaning.specs.declared.value.Entry.TheVariants.{Bare};

use crate::view::View;
use atomic_table::{Join, Play, Split};
use std::marker::{Brand, PhantomData};

/// What a step is about where its operands don't say: the address, the amount or the id, and the
/// entry.
pub(crate) trait About {
    ghost number: { ℕ };

    ghost entry: { Entry };
}

impl About for Brand {
    ghost number = { 0 };

    ghost entry = { Bare 0 };
}

/// A load of an address's cell.
pub(crate) struct GetPlay<B> {
    about: PhantomData<B>,
}

impl<B: About> Play<u8, View> for GetPlay<B> {
    ghost use Rattle.safe_table.specs.inner.Plays.{Gets};

    ghost then = { Gets B.number };
}

/// A load of a word of a record that was read.
pub(crate) struct ReadPlay;

impl Play<u8, View> for ReadPlay {
    ghost use Rattle.safe_table.specs.inner.Plays.{Reads};

    ghost then = { Reads };
}

/// A store of the low word of a record.
pub(crate) struct LowPlay;

impl Play<u8, View> for LowPlay {
    ghost use Rattle.safe_table.specs.inner.Plays.{WritesLow};

    ghost then = { WritesLow };
}

/// A store of the high word of a record.
pub(crate) struct HighPlay;

impl Play<u8, View> for HighPlay {
    ghost use Rattle.safe_table.specs.inner.Plays.{WritesHigh};

    ghost then = { WritesHigh };
}

/// A swap of an address's cell.
pub(crate) struct PutPlay<B> {
    about: PhantomData<B>,
}

impl<B: About> Play<u8, View> for PutPlay<B> {
    ghost use Rattle.safe_table.specs.inner.Plays.{Puts};

    ghost then = { Puts B.number B.entry };
}

/// An addition to the slot word.
pub(crate) struct DrawPlay<B> {
    about: PhantomData<B>,
}

impl<B: About> Play<u8, View> for DrawPlay<B> {
    ghost use Rattle.safe_table.specs.inner.Plays.{Draws};

    ghost then = { Draws B.number };
}

/// An exchange of an end word.
pub(crate) struct EndPlay<B> {
    about: PhantomData<B>,
}

impl<B: About> Play<u8, View> for EndPlay<B> {
    ghost use Rattle.safe_table.specs.inner.Plays.{Ends};

    ghost then = { Ends B.number };
}

/// A load of an end word.
pub(crate) struct LookPlay<B> {
    about: PhantomData<B>,
}

impl<B: About> Play<u8, View> for LookPlay<B> {
    ghost use Rattle.safe_table.specs.inner.Plays.{Looks};

    ghost then = { Looks B.number };
}

/// An addition to the thread word.
pub(crate) struct ForkPlay;

impl Play<u8, View> for ForkPlay {
    ghost use Rattle.safe_table.specs.inner.Plays.{Forks};

    ghost then = { Forks };
}

/// A load of word 0 that shows the whole history so far.
pub(crate) struct LearnPlay;

impl Play<u8, View> for LearnPlay {
    ghost use Rattle.safe_table.specs.inner.Plays.{Learning};

    ghost then = { Learning };
}

/// An addition to the number word.
pub(crate) struct NumberPlay;

impl Play<u8, View> for NumberPlay {
    ghost use Rattle.safe_table.specs.inner.Plays.{Numbers};

    ghost then = { Numbers };
}

/// A note is split off a seat.
pub(crate) struct Tell;

impl Split<View> for Tell {
    ghost use Rattle.safe_table.specs.inner.Views.{note};

    ghost left = { λ v. v };

    ghost right = { note };
}

/// A seat with a number is split off the opener.
pub(crate) struct Deal;

impl Split<View> for Deal {
    ghost use Rattle.safe_table.specs.inner.Views.{dealer, dealt};

    ghost left = { dealer };

    ghost right = { dealt };
}

/// A seat takes in another.
pub(crate) struct TakeIn;

impl Join<View> for TakeIn {
    ghost use Rattle.safe_table.specs.inner.Views.{joined, spent};

    ghost both = { joined };

    ghost spent = { spent };
}
