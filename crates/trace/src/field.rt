//! The fields of a line.
ghost use Rattle.std.specs.Prelude.{◌≡◌, ◌++◌, ◌∷◌, map, decimal, OnOk};
ghost use Rattle.trace.specs.Text.{spaced, line};
ghost use Rattle.trace.specs.inner.Field.{field_text};

use itoa::Buffer;
use lv_base::push_number;
use std::alloc::AllocError;

/// A field of a line.
#[derive(Clone, Copy)]
pub(crate) enum Field {
    Word(&'static [u8]),
    Number(i64),
    Count(u64),
}

/// Appends a number that isn't negative.
fn push_count(text: &mut Vec<u8>, n: u64) -> Result<(), AllocError>
    ensures { OnOk result (text.new.items ≡ text.old.items ++ decimal n) }
{
    let mut buffer = Buffer::new();
    text.extend_from_slice(buffer.format(n).as_bytes())
}

/// Appends a space and a field.
fn push_field(text: &mut Vec<u8>, field: Field) -> Result<(), AllocError>
    ensures { OnOk result (text.new.items ≡ text.old.items ++ 32 ∷ field_text field) }
{
    text.push(b' ')?;
    match field {
        Field::Word(word) => text.extend_from_slice(word),
        Field::Number(n) => push_number(text, n),
        Field::Count(n) => push_count(text, n),
    }
}

/// Appends each field behind a space.
pub(crate) fn push_fields(text: &mut Vec<u8>, fields: &[Field]) -> Result<(), AllocError>
    ensures { OnOk result (text.new.items ≡ text.old.items ++ spaced (map field_text fields.now)) }
{
    for field in fields {
        push_field(text, *field)?;
    }
    Ok(())
}

/// Appends a line: its first field, the others and an LF.
pub(crate) fn push_line(text: &mut Vec<u8>, t: u8, fields: &[Field]) -> Result<(), AllocError>
    ensures { OnOk result (text.new.items ≡ text.old.items
        ++ line (decimal t) (map field_text fields.now)) }
{
    push_count(text, u64::from(t))?;
    push_fields(text, fields)?;
    text.push(b'\n')?;
    Ok(())
}
