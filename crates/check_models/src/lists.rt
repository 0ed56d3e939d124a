// Lists in JSON, as they are written.
use std::alloc::AllocError;

/// Appends one more of a list.
pub(crate) fn add(list: &mut String, one: &str) -> Result<(), AllocError> {
    if !list.is_empty() {
        list.push(',')?;
    }
    list.push_str(one)
}
