// The words of the command line.
ghost use Rattle.std.specs.Prelude.{◌≡◌, map, option_map, string_bytes};
ghost use Rattle.rg_run_kept.specs.Words.{Wanted, is_metrics, wanted_of, with_audit, with_metrics};

/// What the words ask for.
#[derive(Clone, Copy)]
pub(crate) struct Words<'a> {
    /// The file in which commands are kept.
    pub file: &'a str,
    /// Where it listens: a host and a port.
    pub address: &'a str,
    /// The file to which audit lines are appended, if any.
    pub audit: Option<&'a str>,
    /// Where the pages on health and metrics are served, if anywhere: a host and a port.
    pub metrics: Option<&'a str>,
}

/// The word before the address of the pages.
#[tactic(auto, unfolding(crate::specs::Words::is_metrics))]
fn is_metrics(word: &str) -> bool
    ensures { result ≡ is_metrics word.now }
{
    word == "--metrics"
}

/// Nothing but a file and an address, and a file of audit lines, which isn't called as the word before another address.
fn with_audit<'a>(file: &'a str, address: &'a str, audit: &'a str) -> Option<Words<'a>>
    ensures { option_map
        (λ w. record {
          file = w.file.now;
          address = w.address.now;
          audit = option_map
              (λ a. a.now) w.audit;
          metrics = option_map (λ m. m.now) w.metrics;
        }) result
        ≡ with_audit file.entry.now address.entry.now audit.entry.now }
{
    if is_metrics(audit) {
        return None;
    }
    Some(Words {
        file,
        address,
        audit: Some(audit),
        metrics: None,
    })
}

/// The address of the pages besides, where the word before it is the right one.
fn with_metrics<'a>(
    file: &'a str,
    address: &'a str,
    audit: Option<&'a str>,
    word: &str,
    metrics: &'a str,
) -> Option<Words<'a>>
    ensures { option_map
        (λ w. record {
          file = w.file.now;
          address = w.address.now;
          audit = option_map
              (λ a. a.now) w.audit;
          metrics = option_map (λ m. m.now) w.metrics;
        }) result
        ≡ with_metrics file.entry.now address.entry.now (option_map (λ a. a.now) audit.entry) word.now metrics.entry.now }
{
    if !is_metrics(word) {
        return None;
    }
    Some(Words {
        file,
        address,
        audit,
        metrics: Some(metrics),
    })
}

/// What the words ask for.
pub(crate) fn wanted_of<'a>(words: &'a [String]) -> Option<Words<'a>>
    ensures { option_map
        (λ w. record {
          file = w.file.now;
          address = w.address.now;
          audit = option_map
              (λ a. a.now) w.audit;
          metrics = option_map (λ m. m.now) w.metrics;
        }) result
        ≡ wanted_of (map string_bytes words.entry.now) }
{
    match words {
        [file, address] => Some(Words {
            file: file.as_str(),
            address: address.as_str(),
            audit: None,
            metrics: None,
        }),
        [file, address, audit] => with_audit(file.as_str(), address.as_str(), audit.as_str()),
        [file, address, word, metrics] => with_metrics(
            file.as_str(),
            address.as_str(),
            None,
            word.as_str(),
            metrics.as_str(),
        ),
        [file, address, audit, word, metrics] => with_metrics(
            file.as_str(),
            address.as_str(),
            Some(audit.as_str()),
            word.as_str(),
            metrics.as_str(),
        ),
        _ => None,
    }
}
