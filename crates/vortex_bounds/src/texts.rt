//! Bounds of texts.

ghost use Rattle.std.specs.Prelude.{◌≡◌, suc, Some, None, IfOk, option_map, if◌then◌else◌};
ghost use Rattle.std.specs.Str.{chars, encode_utf8_all};
ghost use Rattle.std.specs.String.{string_bytes};
ghost use Rattle.vortex_bounds.specs.Texts.{text_lower_bound, text_upper_bound};
ghost use Rattle.vortex_bounds.specs.Texts.{can_be_raised, raised_chars};

use std::alloc::{AllocError, Global};

/// The first whole characters that fit in `max_length` bytes, or all of a shorter text: at most the
/// text, in the order of bytes.
pub fn lower_text(text: &str, max_length: usize) -> &str
    ensures { result.now ≡ text_lower_bound max_length text.now }
{
    &text[..text.floor_char_boundary(max_length)]
}

/// The text, if it is at most `max_length` bytes. A longer one is cut as for [`lower_text`], and
/// the last character of the cut that can be raised is raised, with nothing after it; None where
/// none can. A character can be raised where the code point above it is a character of as many
/// bytes. Its one error is that memory ran out.
pub fn upper_text(
    alloc: Global,
    text: &str,
    max_length: usize,
) -> Result<Option<String>, AllocError>
    ensures { IfOk result (λ bound. option_map string_bytes bound
        ≡ text_upper_bound max_length text.now) }
{
    if text.len() <= max_length {
        return Ok(Some(String::from_str(alloc, text)?));
    }
    raise(alloc, lower_text(text, max_length))
}

fn raise(alloc: Global, text: &str) -> Result<Option<String>, AllocError>
    ensures { IfOk result (λ bound. option_map string_bytes bound
        ≡ option_map encode_utf8_all (raised_chars (chars text.now))) }
{
    for (place, character) in text.char_indices().rev() {
        if let Some(next) = next_char(character) {
            let mut raised = String::from_str(alloc, &text[..place])?;
            raised.push(next)?;
            return Ok(Some(raised));
        }
    }
    Ok(None)
}

/// The next character, if the character can be raised.
fn next_char(character: char) -> Option<char>
    ensures { result ≡ (if can_be_raised character then Some (suc character) else None) }
{
    let next = char::from_u32(character as u32 + 1)?;
    if next.len_utf8() == character.len_utf8() {
        Some(next)
    } else {
        None
    }
}
