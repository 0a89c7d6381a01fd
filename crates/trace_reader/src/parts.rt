//! The parts of lines that several records have.
ghost use Rattle.std.specs.Prelude.{◌≡◌, ◌^◌, ◌∷◌, ◌++◌, codes, IfSome};
ghost use Rattle.fields.specs.Reading.{Reads};
ghost use Rattle.trace.specs.Text.{entry_fields, flag_field, option_field, place_fields, stop_field};
ghost use Rattle.trace_reader.specs.FullText.{IsFoundEntry, IsOptional, IsPlace};
ghost use Rattle.trace_reader.specs.inner.Reading as reader;

use fields::{Fields, is_word, read_u32};
use meaning::{Check, Entry, Place, Stop};

/// Reads what a get found, or what is put.
#[tactic(auto, unfolding(crate::specs::inner::Reading::found))]
pub(super) fn read_found(fields: &mut Fields<'_>) -> Option<Option<Entry>>
    ensures reads { Reads (reader.found fields.old) result fields.new }
    ensures found { IfSome result (λ e. fields.old ≡ entry_fields e ++ fields.new) }
    ensures proper { IfSome result IsFoundEntry }
{
    let tag = fields.field()?;
    read_tagged(tag, fields)
}

/// Reads what this tag begins.
#[tactic(auto, unfolding(crate::specs::inner::Reading::tagged))]
fn read_tagged(tag: &[u8], fields: &mut Fields<'_>) -> Option<Option<Entry>>
    ensures reads { Reads (reader.tagged tag.now fields.old) result fields.new }
    ensures found { IfSome result (λ e. tag.now ∷ fields.old ≡ entry_fields e ++ fields.new) }
    ensures proper { IfSome result IsFoundEntry }
{
    if is_word(tag, b"none") {
        return Some(None);
    }
    if is_word(tag, b"bare") {
        let number = fields.small()?;
        return Some(Some(Entry::Bare(number)));
    }
    if is_word(tag, b"based") {
        return read_based(fields);
    }
    if is_word(tag, b"code") {
        let function = fields.small()?;
        return Some(Some(Entry::Code(function)));
    }
    None
}

/// Reads a pointer's numbers.
#[tactic(auto, unfolding(crate::specs::inner::Reading::based))]
fn read_based(fields: &mut Fields<'_>) -> Option<Option<Entry>>
    ensures reads { Reads (reader.based fields.old) result fields.new }
    ensures found { IfSome result (λ e. codes "based" ∷ fields.old ≡ entry_fields e ++ fields.new) }
    ensures proper { IfSome result IsFoundEntry }
{
    let value = fields.small()?;
    let lower = fields.small()?;
    let upper = fields.small()?;
    let id = fields.small()?;
    Some(Some(Entry::Based {
        value,
        lower,
        upper,
        id,
    }))
}

/// Reads yes or no.
#[tactic(auto, unfolding(crate::specs::inner::Reading::flag))]
pub(super) fn read_flag(fields: &mut Fields<'_>) -> Option<bool>
    ensures reads { Reads (reader.flag fields.old) result fields.new }
    ensures found { IfSome result (λ b. fields.old ≡ flag_field b ∷ fields.new) }
{
    let answer = fields.field()?;
    if is_word(answer, b"yes") {
        return Some(true);
    }
    if is_word(answer, b"no") {
        return Some(false);
    }
    None
}

/// Reads a number or none.
#[tactic(auto, unfolding(crate::specs::inner::Reading::optional))]
pub(super) fn read_optional(fields: &mut Fields<'_>) -> Option<Option<u32>>
    ensures reads { Reads (reader.optional fields.old) result fields.new }
    ensures found { IfSome result (λ n. fields.old ≡ option_field n ∷ fields.new) }
    ensures proper { IfSome result (IsOptional (2 ^ 32)) }
{
    let answer = fields.field()?;
    if is_word(answer, b"none") {
        return Some(None);
    }
    let number = read_u32(answer)?;
    Some(Some(number))
}

/// Reads the place from which a call got its target.
#[tactic(auto, unfolding(crate::specs::inner::Reading::place))]
pub(super) fn read_place(fields: &mut Fields<'_>) -> Option<Place>
    ensures reads { Reads (reader.place fields.old) result fields.new }
    ensures found { IfSome result (λ place. fields.old ≡ place_fields place ++ fields.new) }
    ensures proper { IfSome result IsPlace }
{
    let tag = fields.field()?;
    read_placed(tag, fields)
}

/// Reads the place that this tag begins.
#[tactic(auto, unfolding(crate::specs::inner::Reading::placed))]
fn read_placed(tag: &[u8], fields: &mut Fields<'_>) -> Option<Place>
    ensures reads { Reads (reader.placed tag.now fields.old) result fields.new }
    ensures found { IfSome result (λ place. tag.now ∷ fields.old ≡ place_fields place ++ fields.new) }
    ensures proper { IfSome result IsPlace }
{
    if is_word(tag, b"at") {
        let address = fields.small()?;
        return Some(Place::At(address));
    }
    if is_word(tag, b"slot") {
        let depth = fields.small()?;
        let slot = fields.small()?;
        return Some(Place::Slot { depth, slot });
    }
    None
}

/// The stop by a check that has this word.
#[tactic(auto, unfolding(crate::specs::inner::Reading::check_word))]
fn check_of(word: &[u8]) -> Option<Stop>
    ensures is { result ≡ reader.check_word word.now }
    ensures found { IfSome result (λ stop. word.now ≡ stop_field stop) }
{
    if is_word(word, b"bounds") {
        return Some(Stop::Failed(Check::Bounds));
    }
    if is_word(word, b"dead") {
        return Some(Stop::Failed(Check::Dead));
    }
    if is_word(word, b"bare") {
        return Some(Stop::Failed(Check::NoBase));
    }
    if is_word(word, b"code") {
        return Some(Stop::Failed(Check::NotCode));
    }
    if is_word(word, b"type") {
        return Some(Stop::Failed(Check::WrongType));
    }
    if is_word(word, b"free") {
        return Some(Stop::Failed(Check::BadFree));
    }
    None
}

/// The stop that has this word.
#[tactic(auto, unfolding(crate::specs::inner::Reading::stop_word))]
pub(super) fn stop_of(word: &[u8]) -> Option<Stop>
    ensures is { result ≡ reader.stop_word word.now }
    ensures found { IfSome result (λ stop. word.now ≡ stop_field stop) }
{
    if is_word(word, b"divide") {
        return Some(Stop::Divide);
    }
    if is_word(word, b"depth") {
        return Some(Stop::Depth);
    }
    if is_word(word, b"slots") {
        return Some(Stop::Slots);
    }
    if is_word(word, b"budget") {
        return Some(Stop::Budget);
    }
    if is_word(word, b"hijack") {
        return Some(Stop::Hijack);
    }
    if is_word(word, b"wild") {
        return Some(Stop::Wild);
    }
    check_of(word)
}
