//! The lines of a script.
ghost use Rattle.std.specs.Prelude.{◌≡◌, ◌<◌, ◌≤◌, ◌^◌, ◌∷◌, decimal, codes, IfSome};
ghost use Rattle.std.specs.Option.{option_map};
ghost use Rattle.fields.specs.Fields.{fields_of};
ghost use Rattle.fields.specs.Reading.{Reads};
ghost use Rattle.script.specs.Script.{IsLine, line_text};
ghost use Rattle.script.specs.inner.Reading as reader;
ghost use Rattle.script.specs.inner.Reading.{IsReading, line_of, line_fields, line_in};

use fields::{Fields, field_laws, is_word};

/// The greatest number of turns, of a line and of a script.
pub(super) const GREATEST_TURNS: u32 = 4_000_000;

/// What a line of a script says.
#[derive(Clone, Copy, Drop)]
pub(super) enum Line<'a> {
    /// Nothing stands in it.
    Empty,
    /// A comment, without its `#`.
    Comment(&'a [u8]),
    /// So many turns of a thread.
    Turns(u8, u32),
    /// So many rounds, each one turn of each of so many threads.
    Rounds(u8, u32),
    /// A word is written at an address.
    Write(u32, i64),
    /// The next input.
    Input(i64),
}

/// What this text of a line says. None exactly where it is no line of a script.
pub(super) fn read_line(text: &[u8]) -> Option<Line<'_>>
    ensures { IsReading IsLine text.now result }
{
    field_laws();
    parse_line(text)
}

/// Reads a line, if the text is one.
#[tactic(auto, unfolding(crate::specs::inner::Reading::line_in))]
fn parse_line(text: &[u8]) -> Option<Line<'_>>
    ensures is { option_map line_of result ≡ line_in text.now }
    ensures found { IfSome result (λ read. text.now ≡ line_text (line_of read)) }
    ensures proper { IfSome result (λ read. IsLine (line_of read)) }
{
    field_laws();
    match text.strip_prefix(b"#") {
        Some(comment) => Some(Line::Comment(comment)),
        None => read_fields(&mut Fields::of(text)),
    }
}

/// Reads a line that is no comment.
#[tactic(auto, unfolding(crate::specs::inner::Reading::fields_in))]
fn read_fields<'a>(fields: &mut Fields<'a>) -> Option<Line<'a>>
    ensures reads { Reads (reader.fields_in fields.old) (option_map line_of result) fields.new }
    ensures found { IfSome result (λ read. fields.old ≡ line_fields (line_of read)) }
    ensures proper { IfSome result (λ read. IsLine (line_of read)) }
{
    let first = fields.field()?;
    read_form(first, fields)
}

/// Reads the form that begins with this field.
#[tactic(auto, unfolding(crate::specs::inner::Reading::form_in))]
fn read_form<'a>(first: &[u8], fields: &mut Fields<'a>) -> Option<Line<'a>>
    ensures reads { Reads (reader.form_in first.now fields.old) (option_map line_of result) fields.new }
    ensures found { IfSome result (λ read. first.now ∷ fields.old ≡ line_fields (line_of read)) }
    ensures proper { IfSome result (λ read. IsLine (line_of read)) }
{
    if is_word(first, b"") {
        fields.end()?;
        return Some(Line::Empty);
    }
    if is_word(first, b"t") {
        return read_turns(fields);
    }
    if is_word(first, b"rr") {
        return read_rounds(fields);
    }
    read_datum(first, fields)
}

/// Reads a write or an input, by its first field.
#[tactic(auto, unfolding(crate::specs::inner::Reading::datum_in))]
fn read_datum<'a>(first: &[u8], fields: &mut Fields<'a>) -> Option<Line<'a>>
    ensures reads { Reads (reader.datum_in first.now fields.old) (option_map line_of result) fields.new }
    ensures found { IfSome result (λ read. first.now ∷ fields.old ≡ line_fields (line_of read)) }
    ensures proper { IfSome result (λ read. IsLine (line_of read)) }
{
    if is_word(first, b"w") {
        return read_write(fields);
    }
    if is_word(first, b"in") {
        return read_input(fields);
    }
    None
}

/// Reads the thread and the number of turns.
#[tactic(auto, unfolding(crate::specs::inner::Reading::turns_in))]
fn read_turns<'a>(fields: &mut Fields<'a>) -> Option<Line<'a>>
    ensures reads { Reads (reader.turns_in fields.old) (option_map line_of result) fields.new }
    ensures found { IfSome result (λ read. codes "t" ∷ fields.old ≡ line_fields (line_of read)) }
    ensures proper { IfSome result (λ read. IsLine (line_of read)) }
{
    let thread = fields.within(0, 15)?;
    let turns = fields.within(0, GREATEST_TURNS)?;
    fields.end()?;
    Some(Line::Turns(thread as u8, turns))
}

/// Reads the numbers of threads and of rounds.
#[tactic(auto, unfolding(crate::specs::inner::Reading::rounds_in))]
fn read_rounds<'a>(fields: &mut Fields<'a>) -> Option<Line<'a>>
    ensures reads { Reads (reader.rounds_in fields.old) (option_map line_of result) fields.new }
    ensures found { IfSome result (λ read. codes "rr" ∷ fields.old ≡ line_fields (line_of read)) }
    ensures proper { IfSome result (λ read. IsLine (line_of read)) }
{
    let threads = fields.within(1, 16)?;
    let rounds = fields.within(0, GREATEST_TURNS)?;
    fields.end()?;
    Some(Line::Rounds(threads as u8, rounds))
}

/// Reads the address and the word.
#[tactic(auto, unfolding(crate::specs::inner::Reading::write_in))]
fn read_write<'a>(fields: &mut Fields<'a>) -> Option<Line<'a>>
    ensures reads { Reads (reader.write_in fields.old) (option_map line_of result) fields.new }
    ensures found { IfSome result (λ read. codes "w" ∷ fields.old ≡ line_fields (line_of read)) }
    ensures proper { IfSome result (λ read. IsLine (line_of read)) }
{
    let address = fields.small()?;
    let word = fields.word()?;
    fields.end()?;
    Some(Line::Write(address, word))
}

/// Reads the input.
#[tactic(auto, unfolding(crate::specs::inner::Reading::input_in))]
fn read_input<'a>(fields: &mut Fields<'a>) -> Option<Line<'a>>
    ensures reads { Reads (reader.input_in fields.old) (option_map line_of result) fields.new }
    ensures found { IfSome result (λ read. codes "in" ∷ fields.old ≡ line_fields (line_of read)) }
    ensures proper { IfSome result (λ read. IsLine (line_of read)) }
{
    let word = fields.word()?;
    fields.end()?;
    Some(Line::Input(word))
}
