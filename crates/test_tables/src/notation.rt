// Bytes as the tables write them: `~` is CR LF, `$` is LF, `^` is CR, `%` is the byte 0, `!` is the byte 255, and `@3 ab@` is
// `ababab`. Every other character is its own bytes.
use std::alloc::{AllocError, Global};
use std::str;

/// Appends the bytes of a text without repeated parts.
fn spell_once(bytes: &mut Vec<u8>, text: &str) -> Result<(), AllocError> {
    for byte in text.as_bytes() {
        match *byte {
            b'~' => bytes.extend_from_slice(b"\r\n")?,
            b'$' => bytes.push(b'\n')?,
            b'^' => bytes.push(b'\r')?,
            b'%' => bytes.push(0)?,
            b'!' => bytes.push(255)?,
            other => bytes.push(other)?,
        }
    }
    Ok(())
}

/// Appends the bytes of a repeated part: a number, a space, and the text.
fn spell_repeated(bytes: &mut Vec<u8>, part: &str) -> Result<(), AllocError> {
    let Some((times, text)) = part.split_once(' ') else {
        return Ok(());
    };
    for _ in 0..times.parse::<u32>().unwrap_or(0) {
        spell_once(bytes, text)?;
    }
    Ok(())
}

/// The bytes that the text stands for.
pub fn spelled(alloc: Global, text: &str) -> Result<Vec<u8>, AllocError> {
    let mut bytes = Vec::new(alloc);
    for (place, part) in text.split('@').enumerate() {
        if place % 2 == 0 {
            spell_once(&mut bytes, part)?;
        } else {
            spell_repeated(&mut bytes, part)?;
        }
    }
    Ok(bytes)
}

/// The text that stands for the bytes, without repeated parts: `~` for each of these line ends, and `^` for a CR before one or at
/// the end.
pub fn written(alloc: Global, bytes: &[u8], end: &str) -> Result<String, AllocError> {
    let mut text = String::new(alloc);
    for (place, line) in str::from_utf8(bytes)
        .unwrap_or("no text")
        .split(end)
        .enumerate()
    {
        if 0 < place {
            text.push('~')?;
        }
        match line.strip_suffix('\r') {
            Some(front) => {
                text.push_str(front)?;
                text.push('^')?;
            }
            None => text.push_str(line)?,
        }
    }
    Ok(text)
}
