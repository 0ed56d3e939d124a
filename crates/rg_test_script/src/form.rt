// How the outcome of tests is printed.

/// How the outcome of tests is printed.
#[derive(Clone, Copy, Debug, PartialEq, Eq)]
pub enum Form {
    /// What failed in sentences, and how many passed and failed.
    Words,
    /// XML as JUnit writes it, which build servers show.
    Junit,
}
