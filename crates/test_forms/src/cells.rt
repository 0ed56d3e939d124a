// The cells of a row, each of which ends in a bar.

/// The cell at this place, the first at 0; the empty text where there is none.
pub(crate) fn cell(row: &str, at: usize) -> &str {
    row.split('|').nth(at).unwrap_or("")
}

/// The number in the cell at this place; 0 where there is none.
pub(crate) fn signed(row: &str, at: usize) -> i64 {
    cell(row, at).parse().unwrap_or(0)
}

/// The number in the cell at this place; 0 where there is none.
pub(crate) fn unsigned(row: &str, at: usize) -> u64 {
    cell(row, at).parse().unwrap_or(0)
}
