// The fields of a row.

/// The number that a field writes; 0 where it writes none.
pub(crate) fn number(field: Option<&str>) -> u32 {
    field.unwrap_or("").parse::<u32>().unwrap_or(0)
}
