// Whether two lists of names share one.
ghost use Rattle.std.specs.Prelude.{◌≡◌};
ghost use Rattle.std.specs.List.{list_any};
ghost use Rattle.rg_base.specs.Texts.{is_among};

use crate::name_index::NameIndex;
use crate::text::{Text, is_among};

/// Where one of two lists has at most so many names, each of them is looked at for each of the other's.
const FEW: usize = 64;

fn any_by_scan(names: &[Text], others: &[Text]) -> bool
    ensures { result ≡ list_any (λ n. is_among n others.now) names.now }
{
    names.iter().any(|name| is_among(name.as_str(), others))
}

/// By an index of the shorter list, of which `some` is one, and by a scan where there is no memory for it.
fn any_by_index(some: &Text, shorter: &[Text], longer: &[Text]) -> bool
    ensures { result ≡ list_any (λ n. is_among n longer.now) shorter.now }
{
    match NameIndex::build(some.allocator(), shorter) {
        Ok(index) => index.any_among(longer),
        Err(_) => any_by_scan(shorter, longer),
    }
}

/// Whether one of the names is among the others. Where both lists are long the work is that of sorting the shorter and of
/// looking up each name of the longer; where one is short, or memory is refused, they are scanned.
pub fn any_among(names: &[Text], others: &[Text]) -> bool
    ensures { result ≡ list_any (λ n. is_among n others.now) names.now }
{
    match (names.get(FEW), others.get(FEW)) {
        (Some(some), Some(other)) => {
            if names.len() < others.len() {
                any_by_index(some, names, others)
            } else {
                any_by_index(other, others, names)
            }
        }
        _ => any_by_scan(names, others),
    }
}
