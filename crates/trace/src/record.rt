//! The lines of records.
ghost use Rattle.std.specs.Prelude.{◌≡◌, ◌++◌, ◌∷◌, [], decimal, slice_index, OnOk};
ghost use Rattle.std.specs.Fmt.{signed_decimal};
ghost use Rattle.trace.specs.Text.{line, entry_fields, did_fields, note_fields, check_field, stop_field, flag_field, option_field, input_text, record_text};
ghost use Rattle.trace.specs.inner.Field.{field_text};

use super::field::{Field, push_fields, push_line};
use meaning::{Action, Check, Entry, Note, Place, Record, Reply, Stop};
use std::alloc::AllocError;

/// Appends the line of an access of the safe store.
fn push_entry(
    text: &mut Vec<u8>,
    t: u8,
    word: &'static [u8],
    address: u32,
    entry: Option<Entry>,
) -> Result<(), AllocError>
    ensures { OnOk result (text.new.items ≡ text.old.items
        ++ line (decimal t) (word.now ∷ decimal address ∷ entry_fields entry)) }
{
    let word = Field::Word(word);
    let address = Field::Count(u64::from(address));
    match entry {
        None => push_line(text, t, &[word, address, Field::Word(b"none")]),
        Some(Entry::Bare(v)) => {
            let fields = [
                word,
                address,
                Field::Word(b"bare"),
                Field::Count(u64::from(v)),
            ];
            push_line(text, t, &fields)
        }
        Some(
            Entry::Based {
                value,
                lower,
                upper,
                id,
            },
        ) => {
            let fields = [
                word,
                address,
                Field::Word(b"based"),
                Field::Count(u64::from(value)),
                Field::Count(u64::from(lower)),
                Field::Count(u64::from(upper)),
                Field::Count(u64::from(id)),
            ];
            push_line(text, t, &fields)
        }
        Some(Entry::Code(f)) => {
            let fields = [
                word,
                address,
                Field::Word(b"code"),
                Field::Count(u64::from(f)),
            ];
            push_line(text, t, &fields)
        }
    }
}

/// Appends the line of an access of ordinary memory.
fn push_word(
    text: &mut Vec<u8>,
    t: u8,
    word: &'static [u8],
    address: u32,
    v: i64,
) -> Result<(), AllocError>
    ensures { OnOk result (text.new.items ≡ text.old.items
        ++ line (decimal t) (word.now ∷ decimal address ∷ signed_decimal v ∷ [])) }
{
    let fields = [
        Field::Word(word),
        Field::Count(u64::from(address)),
        Field::Number(v),
    ];
    push_line(text, t, &fields)
}

/// Appends the line of a call that answers yes or no about an id.
fn push_flag(
    text: &mut Vec<u8>,
    t: u8,
    word: &'static [u8],
    id: u32,
    flag: bool,
) -> Result<(), AllocError>
    ensures { OnOk result (text.new.items ≡ text.old.items
        ++ line (decimal t) (word.now ∷ decimal id ∷ flag_field flag ∷ [])) }
{
    let answer: &'static [u8] = if flag { b"yes" } else { b"no" };
    let fields = [
        Field::Word(word),
        Field::Count(u64::from(id)),
        Field::Word(answer),
    ];
    push_line(text, t, &fields)
}

/// The field of a number that may be missing.
fn optional(n: Option<u32>) -> Field
    ensures { field_text result ≡ option_field n }
{
    match n {
        None => Field::Word(b"none"),
        Some(n) => Field::Count(u64::from(n)),
    }
}

/// Appends the line of an action with its reply, where a turn makes such a pair.
fn push_did(text: &mut Vec<u8>, t: u8, action: Action, reply: Reply) -> Result<(), AllocError>
    ensures { OnOk result (text.new.items ≡ text.old.items
        ++ line (decimal t) (did_fields action reply)) }
{
    match (action, reply) {
        (Action::Get(a), Reply::Found(entry)) => push_entry(text, t, b"get", a, entry),
        (Action::Put(a, entry), Reply::Nothing) => push_entry(text, t, b"put", a, Some(entry)),
        (Action::Alloc(k), Reply::Slot(slot)) => {
            let slot = optional(slot);
            push_line(
                text,
                t,
                &[Field::Word(b"alloc"), Field::Count(u64::from(k)), slot],
            )
        }
        (Action::Free(id), Reply::Flag(flag)) => push_flag(text, t, b"free", id, flag),
        (Action::Look(id), Reply::Flag(flag)) => push_flag(text, t, b"look", id, flag),
        (Action::Fork, Reply::Thread(thread)) => {
            let thread = optional(thread.map(u32::from));
            push_line(text, t, &[Field::Word(b"fork"), thread])
        }
        (Action::Load(a), Reply::Word(v)) => push_word(text, t, b"load", a, v),
        (Action::Store(a, v), Reply::Nothing) => push_word(text, t, b"store", a, v),
        (Action::TryLock(a), Reply::Word(v)) => push_word(text, t, b"lock", a, v),
        (Action::Input(k), Reply::Word(v)) => {
            push_line(
                text,
                t,
                &[Field::Word(b"input"), Field::Number(k), Field::Number(v)],
            )
        }
        (Action::Print(v), Reply::Nothing) => {
            push_line(text, t, &[Field::Word(b"print"), Field::Number(v)])
        }
        _ => push_line(text, t, &[]),
    }
}

/// Appends the line of a call through a pointer.
fn push_indirect(
    text: &mut Vec<u8>,
    t: u8,
    depth: u32,
    f: u32,
    from: u32,
    place: Place,
) -> Result<(), AllocError>
    ensures { OnOk result (text.new.items ≡ text.old.items
        ++ line (decimal t) (note_fields (Note.Indirect depth f from place))) }
{
    let word = Field::Word(b"icall");
    let depth = Field::Count(u64::from(depth));
    let f = Field::Count(u64::from(f));
    let from = Field::Count(u64::from(from));
    match place {
        Place::At(a) => {
            let a = Field::Count(u64::from(a));
            push_line(text, t, &[word, depth, f, from, Field::Word(b"at"), a])
        }
        Place::Slot { depth: e, slot } => {
            let e = Field::Count(u64::from(e));
            let slot = Field::Count(u64::from(slot));
            push_line(
                text,
                t,
                &[word, depth, f, from, Field::Word(b"slot"), e, slot],
            )
        }
    }
}

/// Appends a line of a word and three numbers.
fn push_three(
    text: &mut Vec<u8>,
    t: u8,
    word: &'static [u8],
    numbers: [u32; 3],
) -> Result<(), AllocError>
    ensures { OnOk result (text.new.items ≡ text.old.items ++ line (decimal t)
        (word.now ∷ decimal (slice_index numbers 0) ∷ decimal (slice_index numbers 1)
        ∷ decimal (slice_index numbers 2) ∷ [])) }
{
    let [first, second, third] = numbers;
    let fields = [
        Field::Word(word),
        Field::Count(u64::from(first)),
        Field::Count(u64::from(second)),
        Field::Count(u64::from(third)),
    ];
    push_line(text, t, &fields)
}

/// The word of a failed check.
fn check_word(check: Check) -> &'static [u8]
    ensures { result.now ≡ check_field check }
{
    match check {
        Check::Bounds => b"bounds",
        Check::Dead => b"dead",
        Check::NoBase => b"bare",
        Check::NotCode => b"code",
        Check::WrongType => b"type",
        Check::BadFree => b"free",
    }
}

/// The word of a stop.
fn stop_word(stop: Stop) -> &'static [u8]
    ensures { result.now ≡ stop_field stop }
{
    match stop {
        Stop::Failed(check) => check_word(check),
        Stop::Divide => b"divide",
        Stop::Depth => b"depth",
        Stop::Slots => b"slots",
        Stop::Budget => b"budget",
        Stop::Hijack => b"hijack",
        Stop::Wild => b"wild",
    }
}

/// Appends the line of a note.
fn push_note(text: &mut Vec<u8>, t: u8, note: Note) -> Result<(), AllocError>
    ensures { OnOk result (text.new.items ≡ text.old.items ++ line (decimal t) (note_fields note)) }
{
    match note {
        Note::Call { depth, f, from } => push_three(text, t, b"call", [depth, f, from]),
        Note::Indirect {
            depth,
            f,
            from,
            place,
        } => push_indirect(text, t, depth, f, from, place),
        Note::Start { f, at } => {
            let f = Field::Count(u64::from(f));
            let at = Field::Count(u64::from(at));
            push_line(text, t, &[Field::Word(b"start"), f, Field::Word(b"at"), at])
        }
        Note::Return { depth, f, to } => push_three(text, t, b"return", [depth, f, to]),
        Note::End => push_line(text, t, &[Field::Word(b"end")]),
        Note::CodeSlot { depth, slot, f } => push_three(text, t, b"slot", [depth, slot, f]),
        Note::CodeOwn { at, f } => {
            let at = Field::Count(u64::from(at));
            push_line(
                text,
                t,
                &[Field::Word(b"own"), at, Field::Count(u64::from(f))],
            )
        }
        Note::Stopped(stop) => {
            push_line(
                text,
                t,
                &[Field::Word(b"stop"), Field::Word(stop_word(stop))],
            )
        }
    }
}

/// Appends the line of a corruption.
fn push_write(text: &mut Vec<u8>, a: u32, v: i64) -> Result<(), AllocError>
    ensures { OnOk result (text.new.items ≡ text.old.items ++ record_text (Record.Wrote a v)) }
{
    text.push(b'w')?;
    push_fields(text, &[Field::Count(u64::from(a)), Field::Number(v)])?;
    text.push(b'\n')?;
    Ok(())
}

/// Appends the line of an input.
pub(crate) fn push_input(text: &mut Vec<u8>, v: i64) -> Result<(), AllocError>
    ensures { OnOk result (text.new.items ≡ text.old.items ++ input_text v) }
{
    text.extend_from_slice(b"in")?;
    push_fields(text, &[Field::Number(v)])?;
    text.push(b'\n')?;
    Ok(())
}

/// Appends a record's line.
pub(crate) fn push_record(text: &mut Vec<u8>, entry: Record) -> Result<(), AllocError>
    ensures { OnOk result (text.new.items ≡ text.old.items ++ record_text entry) }
{
    match entry {
        Record::Steps { t, n } => push_line(text, t, &[Field::Word(b"steps"), Field::Count(n)]),
        Record::Did { t, action, reply } => push_did(text, t, action, reply),
        Record::Noted { t, note } => push_note(text, t, note),
        Record::Wrote { a, v } => push_write(text, a, v),
    }
}
