// What is asked for each part of a download.
ghost use Rattle.std.specs.Prelude.{◌≡◌, IfOk, string_bytes};
ghost use Rattle.std.specs.Str.{chars};
ghost use Rattle.rg_remote.specs.Remotes.{query, target};

use rg_base::{NoMemory, Text, Version};
use std::alloc::Global;

// From which version the part is asked for.
#[tactic(auto, using(crate::proofs::Targets::targets))]
fn query(alloc: Global, from: Option<Version>) -> Result<String, NoMemory>
    ensures { IfOk result (λ s. chars (string_bytes s) ≡ query from) }
{
    match from {
        None => Ok(String::new(alloc)),
        Some(Version(version)) => Ok(format!(in alloc; "?lastKnownVersion={version}")?),
    }
}

/// The target of a question: the path, the service, and from which version.
#[tactic(auto, using(crate::proofs::Targets::targets))]
pub(crate) fn target(
    alloc: Global,
    path: &str,
    service: &str,
    from: Option<Version>,
) -> Result<Text, NoMemory>
    ensures { IfOk result (λ t. t ≡ target (chars path.now) (chars service.now) from) }
{
    let query = query(alloc, from)?;
    let query = query.as_str();
    Ok(Text::of(format!(in alloc; "{path}{service}{query}")?))
}
