//! Strings of JSON.
ghost use Rattle.std.specs.Prelude.{◌≡◌, ◌++◌, flat_map, IfOk, OnOk, string_bytes};
ghost use Rattle.json.specs.Print.{quoted};
ghost use Rattle.bidi_terminal.specs.Json.{json_char, json_string};

use crate::names::{chars_of, is_hidden, push_hex};
use serde_json::Value;
use std::alloc::{AllocError, Global};

// Returns a text as a string of JSON, with JSON's own escapes alone.
fn quoted(alloc: Global, text: &str) -> Result<String, AllocError>
    ensures { IfOk result (λ out. string_bytes out ≡ quoted text.now) }
{
    Value::try_from_str(alloc, text)?.to_string(alloc)
}

// Appends a character of a string of JSON.
fn push_char(out: &mut String, c: char) -> Result<(), AllocError>
    ensures { OnOk result (string_bytes out.new ≡ string_bytes out.old ++ json_char c) }
{
    if is_hidden(c) {
        out.push_str("\\u")?;
        return push_hex(out, c);
    }
    out.push(c)
}

// Appends the characters of a string of JSON.
fn push_chars(out: &mut String, chars: &[char]) -> Result<(), AllocError>
    ensures { OnOk result (string_bytes out.new ≡ string_bytes out.old ++ flat_map json_char chars.now) }
{
    for c in chars {
        push_char(out, *c)?;
    }
    Ok(())
}

/// Appends a text as a string of JSON, with its quotes.
///
/// Besides the characters that JSON must escape, hidden characters are escaped, as in `\u202E`.
#[tactic(auto, unfolding(crate::specs::Json::json_string))]
pub fn push_json_string(alloc: Global, out: &mut String, text: &str) -> Result<(), AllocError>
    ensures { OnOk result (string_bytes out.new ≡ string_bytes out.old ++ json_string text.now) }
{
    let quoted = quoted(alloc, text)?;
    let chars = chars_of(alloc, quoted.as_str())?;
    push_chars(out, chars.as_slice())
}
