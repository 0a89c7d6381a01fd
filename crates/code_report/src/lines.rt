//! Lines of a report.

ghost use Rattle.std.specs.Prelude.{◌≡◌, ◌++◌, ◌∷◌, decimal, OnOk};
ghost use Rattle.code_report.specs.Lines as spec;

use core_ir::GlobalVar;
use lv_base::push_number;
use sensitivity::Class;
use std::alloc::AllocError;

/// The word for a class.
fn class_word(class: Class) -> &'static [u8]
    ensures { result.now ≡ spec.class_word class }
{
    match class {
        Class::Code => b"code",
        Class::Sensitive => b"sensitive",
        Class::Universal => b"universal",
        Class::Regular => b"regular",
    }
}

/// Appends a space and a word.
fn push_word(text: &mut Vec<u8>, word: &[u8]) -> Result<(), AllocError>
    ensures { OnOk result (text.new.items ≡ text.old.items ++ 32 ∷ word.now) }
{
    text.push(b' ')?;
    text.extend_from_slice(word)?;
    Ok(())
}

/// Appends a space and a number.
fn push_count(text: &mut Vec<u8>, n: u32) -> Result<(), AllocError>
    ensures { OnOk result (text.new.items ≡ text.old.items ++ 32 ∷ decimal n) }
{
    text.push(b' ')?;
    push_number(text, i64::from(n))?;
    Ok(())
}

/// Appends the line of a struct.
pub(crate) fn push_struct(text: &mut Vec<u8>, name: &[u8], class: Class) -> Result<(), AllocError>
    ensures { OnOk result (text.new.items ≡ text.old.items ++ spec.struct_line name.now class) }
{
    text.extend_from_slice(b"struct")?;
    push_word(text, name)?;
    push_word(text, class_word(class))?;
    text.push(b'\n')?;
    Ok(())
}

/// Appends the line of a global.
pub(crate) fn push_global(
    text: &mut Vec<u8>,
    name: &[u8],
    global: &GlobalVar,
) -> Result<(), AllocError>
    ensures { OnOk result (text.new.items
        ≡ text.old.items ++ spec.global_line name.now global.now) }
{
    text.extend_from_slice(b"global")?;
    push_word(text, name)?;
    push_count(text, global.address)?;
    push_count(text, global.units)?;
    text.push(b'\n')?;
    Ok(())
}

/// Appends the line of a function.
pub(crate) fn push_function(
    text: &mut Vec<u8>,
    f: u32,
    name: &[u8],
    instructions: u32,
    checks: u32,
) -> Result<(), AllocError>
    ensures { OnOk result (text.new.items
        ≡ text.old.items ++ spec.function_line f name.now instructions checks) }
{
    text.extend_from_slice(b"function")?;
    push_count(text, f)?;
    push_word(text, name)?;
    push_count(text, instructions)?;
    push_count(text, checks)?;
    text.push(b'\n')?;
    Ok(())
}

/// The word for a local that is safe or isn't.
fn safe_word(is_safe: bool) -> &'static [u8]
    ensures { result.now ≡ spec.safe_word is_safe }
{
    if is_safe { b"safe" } else { b"unsafe" }
}

/// Appends the line of a frame local.
pub(crate) fn push_local(text: &mut Vec<u8>, name: &[u8], is_safe: bool) -> Result<(), AllocError>
    ensures { OnOk result (text.new.items ≡ text.old.items ++ spec.local_line name.now is_safe) }
{
    text.extend_from_slice(b"local")?;
    push_word(text, name)?;
    push_word(text, safe_word(is_safe))?;
    text.push(b'\n')?;
    Ok(())
}
