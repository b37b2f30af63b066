// Lines of a text, counted from 0.
const LINE_END: u8 = b'\n';

// A text up to the end of a line, without its line end.
pub fn text_to(text: &[u8], number: usize) -> &[u8] {
    let end = (0..text.len()).filter(|i| text[*i] == LINE_END).nth(number);
    match end {
        Some(end) => &text[..end],
        None => text,
    }
}

// A line of a text, without its line end.
pub fn line(text: &[u8], number: usize) -> &[u8] {
    text_to(text, number)
        .rsplit(|b| *b == LINE_END)
        .next()
        .unwrap_or(b"")
}
