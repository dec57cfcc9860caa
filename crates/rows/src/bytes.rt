//! Bytes as text: `\n`, `\r`, `\t`, `\\` and `\xHH` are one byte each.

use crate::telling::Told;

/// Adds the bytes that a text stands for. A backslash that begins no escape stands for itself.
pub fn unescape(text: &str, bytes: &mut Vec<u8>) -> Told {
    let mut rest = text;
    for _ in 0..text.len() {
        let Some((plain, escape)) = rest.split_once('\\') else {
            break;
        };
        bytes.extend_from_slice(plain.as_bytes())?;
        let (byte, after) = escaped(escape).unwrap_or((b'\\', escape));
        bytes.push(byte)?;
        rest = after;
    }
    bytes.extend_from_slice(rest.as_bytes())
}

// The byte that stands after a backslash, and what follows.
fn escaped(text: &str) -> Option<(u8, &str)> {
    let (letter, rest) = text.split_at_checked(1)?;
    match letter {
        "n" => Some((b'\n', rest)),
        "r" => Some((b'\r', rest)),
        "t" => Some((b'\t', rest)),
        "\\" => Some((b'\\', rest)),
        "x" => {
            let (digits, rest) = rest.split_at_checked(2)?;
            Some((u8::from_str_radix(digits, 16).ok()?, rest))
        }
        _ => None,
    }
}

/// The rest that a reading leaves, in quotes, or `none` where it fails.
pub fn tell_rest(told: &mut String, rest: Option<&[u8]>) -> Told {
    let Some(rest) = rest else {
        return told.push_str("none");
    };
    told.push_str("\"")?;
    tell_bytes(told, rest)?;
    told.push_str("\"")
}

/// Bytes, with their escapes.
pub fn tell_bytes(told: &mut String, bytes: &[u8]) -> Told {
    for byte in bytes {
        tell_byte(told, *byte)?;
    }
    Ok(())
}

fn tell_byte(told: &mut String, byte: u8) -> Told {
    match byte {
        b'\n' => told.push_str("\\n"),
        b'\r' => told.push_str("\\r"),
        b'\t' => told.push_str("\\t"),
        b'\\' => told.push_str("\\\\"),
        b' '..=b'~' => told.push(char::from(byte)),
        _ => write!(told, "\\x{byte:02x}"),
    }
}
