// The columns of a line.

/// The column at the end of a text, counted from its last line end.
pub(crate) fn column_at_end(text: &str, tab: usize) -> usize {
    let mut column = 0usize;
    for byte in text.as_bytes().iter().rev() {
        match *byte {
            b'\n' => return column,
            b'\t' => column = column.saturating_add(tab),
            0x80..=0xbf => {}
            _ => column = column.saturating_add(1),
        }
    }
    column
}
