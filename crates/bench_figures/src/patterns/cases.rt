// What is timed, and how often its tests hold.
use rg_base::NoMemory;
use rg_pattern::Pattern;
use std::alloc::Global;

/// A set of tests.
#[derive(Clone, Copy)]
pub(crate) enum Case {
    /// `*a*a*a*b` against 4,096 letters a.
    Worst,
    /// `*a?a?a?a?a?a?a?b` against 4,096 letters a, where each segment fits nearly everywhere.
    Nested,
    /// Six patterns of resource names against six names.
    Typical,
    /// Three pairs of patterns.
    Overlap,
}

/// All of them.
pub(crate) const CASES: [Case; 4] = [Case::Worst, Case::Nested, Case::Typical, Case::Overlap];

impl Case {
    /// The word that names the case.
    pub(crate) fn name(self) -> &'static str {
        match self {
            Case::Worst => "worst",
            Case::Nested => "nested",
            Case::Typical => "typical",
            Case::Overlap => "overlap",
        }
    }

    /// The case that a word names.
    pub(crate) fn of_name(name: &str) -> Option<Case> {
        CASES.into_iter().find(|case| case.name() == name)
    }
}

/// How many tests of so many rounds hold.
pub(crate) fn count_of(alloc: Global, case: Case, rounds: u32) -> Result<u64, NoMemory> {
    match case {
        Case::Worst => count_letters(alloc, "*a*a*a*b", rounds),
        Case::Nested => count_letters(alloc, "*a?a?a?a?a?a?a?b", rounds),
        Case::Typical => count_typical(alloc, rounds),
        Case::Overlap => count_overlaps(alloc, rounds),
    }
}

fn parsed(alloc: Global, written: &[&str]) -> Result<Vec<Pattern>, NoMemory> {
    let mut patterns = Vec::new(alloc);
    for text in written {
        let Ok(pattern) = Pattern::parse(alloc, text, true) else {
            return Err(NoMemory);
        };
        patterns.push(pattern)?;
    }
    Ok(patterns)
}

fn count_matches(patterns: &[Pattern], values: &[&str], rounds: u32) -> u64 {
    let mut count: u64 = 0;
    for _ in 0..rounds {
        for value in values {
            let held = patterns
                .iter()
                .filter(|pattern| pattern.matches(value, "ann", true))
                .count();
            count = count.saturating_add(held as u64);
        }
    }
    count
}

fn count_letters(alloc: Global, written: &str, rounds: u32) -> Result<u64, NoMemory> {
    let mut value = String::new(alloc);
    for _ in 0..4096 {
        value.push('a')?;
    }
    let patterns = parsed(alloc, &[written])?;
    Ok(count_matches(&patterns, &[value.as_str()], rounds))
}

fn count_typical(alloc: Global, rounds: u32) -> Result<u64, NoMemory> {
    let patterns = parsed(
        alloc,
        &["db*", "sales_%", "fin?nce", "/data/{USER}/*", "*_eu", "hr"],
    )?;
    let values = [
        "DB_orders",
        "sales_eu",
        "finance",
        "/data/ann/report",
        "db_eu",
        "hrx",
    ];
    Ok(count_matches(&patterns, &values, rounds))
}

fn count_overlaps(alloc: Global, rounds: u32) -> Result<u64, NoMemory> {
    let pairs = [("*a*a*a*b", "b*a*a*a*"), ("db*", "*s"), ("fin?", "finance")];
    let mut count: u64 = 0;
    for (written, other) in pairs {
        let (Ok(p), Ok(q)) = (
            Pattern::parse(alloc, written, true),
            Pattern::parse(alloc, other, true),
        ) else {
            return Err(NoMemory);
        };
        if !p.has_user() && !q.has_user() {
            for _ in 0..rounds {
                if p.overlap(alloc, &q, true)? {
                    count = count.saturating_add(1);
                }
            }
        }
    }
    Ok(count)
}
