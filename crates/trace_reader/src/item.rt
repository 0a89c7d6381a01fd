//! The lines of a full text.
ghost use Rattle.std.specs.Prelude.{◌≡◌, ◌++◌, ◌∷◌, ◌<◌, [], decimal, codes, IfSome};
ghost use Rattle.fields.specs.Reading.{Reads};
ghost use Rattle.fields.specs.Fields.{fields_of};
ghost use Rattle.trace_reader.specs.inner.Items.{IsReading, IsItem, item_fields};
ghost use Rattle.trace_reader.specs.inner.Reading as reader;

use super::deeds::read_memory;
use fields::{Fields, field_laws, is_word, read_u32};
use meaning::Record;

/// What a line of a full text is.
#[derive(Clone, Copy, Drop)]
pub(super) enum Item {
    /// An input.
    Given(i64),
    /// A record.
    Recorded(Record),
}

/// What this line, with the LF that ends it, is. None exactly where it is no input's and no record's.
pub(super) fn read_item(raw: &[u8]) -> Option<Item>
    ensures { IsReading raw.now result }
{
    field_laws();
    let text = raw.strip_suffix(b"\n")?;
    read_whole(&mut Fields::of(text))
}

/// Reads all fields of a line.
#[tactic(auto, unfolding(crate::specs::inner::Reading::whole))]
fn read_whole(fields: &mut Fields<'_>) -> Option<Item>
    ensures reads { Reads (reader.whole fields.old) result fields.new }
    ensures found { IfSome result (λ item. fields.old ≡ item_fields item) }
    ensures proper { IfSome result IsItem }
{
    let first = fields.field()?;
    let item = read_behind(first, fields)?;
    fields.end()?;
    Some(item)
}

/// Reads the item that this field begins.
#[tactic(auto, unfolding(crate::specs::inner::Reading::item))]
fn read_behind(first: &[u8], fields: &mut Fields<'_>) -> Option<Item>
    ensures reads { Reads (reader.item first.now fields.old) result fields.new }
    ensures found { IfSome result (λ item. first.now ∷ fields.old ≡ item_fields item ++ fields.new) }
    ensures proper { IfSome result IsItem }
{
    if is_word(first, b"in") {
        return read_given(fields);
    }
    if is_word(first, b"w") {
        return read_wrote(fields);
    }
    let thread = read_u32(first)?;
    if thread < 16 {
        read_threaded(thread as u8, fields)
    } else {
        None
    }
}

/// Reads an input.
#[tactic(auto, unfolding(crate::specs::inner::Reading::given))]
fn read_given(fields: &mut Fields<'_>) -> Option<Item>
    ensures reads { Reads (reader.given fields.old) result fields.new }
    ensures found { IfSome result (λ item. codes "in" ∷ fields.old ≡ item_fields item ++ fields.new) }
    ensures proper { IfSome result IsItem }
{
    let word = fields.word()?;
    Some(Item::Given(word))
}

/// Reads a corruption.
#[tactic(auto, unfolding(crate::specs::inner::Reading::wrote))]
fn read_wrote(fields: &mut Fields<'_>) -> Option<Item>
    ensures reads { Reads (reader.wrote fields.old) result fields.new }
    ensures found { IfSome result (λ item. codes "w" ∷ fields.old ≡ item_fields item ++ fields.new) }
    ensures proper { IfSome result IsItem }
{
    let a = fields.small()?;
    let v = fields.word()?;
    Some(Item::Recorded(Record::Wrote { a, v }))
}

/// Reads a record of a thread.
#[tactic(auto, unfolding(crate::specs::inner::Reading::threaded))]
fn read_threaded(t: u8, fields: &mut Fields<'_>) -> Option<Item>
    requires { t < 16 }
    ensures reads { Reads (reader.threaded t fields.old) result fields.new }
    ensures found { IfSome result (λ item. decimal t ∷ fields.old ≡ item_fields item ++ fields.new) }
    ensures proper { IfSome result IsItem }
{
    let word = fields.field()?;
    let record = read_memory(t, word, fields)?;
    Some(Item::Recorded(record))
}
