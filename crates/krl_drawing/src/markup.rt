//! Text and elements of SVG.
use std::alloc::{AllocError, Global};

/// Puts the text where a drawing has text.
pub fn push_text(out: &mut String, text: &[u8]) -> Result<(), AllocError> {
    for byte in text {
        match *byte {
            b'&' => out.push_str("&amp;")?,
            b'<' => out.push_str("&lt;")?,
            b'>' => out.push_str("&gt;")?,
            plain if plain.is_ascii_graphic() || plain == b' ' => out.push(plain as char)?,
            _ => out.push('?')?,
        }
    }
    Ok(())
}

/// A text of this class that begins at this place.
pub fn text(
    alloc: Global,
    class: &str,
    x: usize,
    y: usize,
    text: &[u8],
) -> Result<String, AllocError> {
    let mut out = format!(in alloc; "<text class=\"{class}\" x=\"{x}\" y=\"{y}\">")?;
    push_text(&mut out, text)?;
    out.push_str("</text>\n")?;
    Ok(out)
}

/// What is shown of an element as long as the pointer is over it.
pub fn title(alloc: Global, text: &[u8]) -> Result<String, AllocError> {
    let mut out = format!(in alloc; "<title>")?;
    push_text(&mut out, text)?;
    out.push_str("</title>")?;
    Ok(out)
}
