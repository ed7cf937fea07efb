// The first line of a text, and the lines behind a question that give the answer wanted.
ghost use Rattle.std.specs.Prelude.{IfSome, ◌<◌, length};

// The first line of a text without its line feed, and what stands behind it; nothing where the text is at its end.
pub fn split_line(text: &[u8]) -> Option<(&[u8], &[u8])>
    ensures { IfSome result (λ parts. length parts.1.now < length text.now) }
{
    match text.iter().position(|b| *b == b'\n') {
        Some(end) => Some((&text[..end], &text[end + 1..])),
        None if text.is_empty() => None,
        None => Some((text, &[])),
    }
}

// The lines at the front of a text that begin with `=`, and what stands behind them. (No `split` with `take_while`: it gives lines, and not where the last of them ends.)
pub fn split_wanted(text: &[u8]) -> (&[u8], &[u8]) {
    let mut rest = text;
    while let Some((line, behind)) = split_line(rest) {
        if line.first() != Some(&b'=') {
            break;
        }
        rest = behind;
    }
    text.split_at(text.len() - rest.len())
}
