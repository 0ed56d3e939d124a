// Lists of two.
ghost use Rattle.std.specs.Prelude.{◌≡◌, [], ◌∷◌, IfSome};

use std::alloc::Global;

/// The items of a list of two.
pub(crate) fn both<T: Drop>(items: Vec<T>) -> Option<(T, T)>
    ensures { IfSome result (λ t. items.items ≡ t.0 ∷ t.1 ∷ []) }
{
    let mut items = items;
    let Some(second) = items.pop() else {
        return None;
    };
    let Some(first) = items.pop() else {
        return None;
    };
    if !items.is_empty() {
        return None;
    }
    Some((first, second))
}

/// A list of two. None where memory is refused.
pub(crate) fn pair<T: Drop>(alloc: Global, first: T, second: T) -> Option<Vec<T>>
    ensures { IfSome result (λ v. v.items ≡ first ∷ second ∷ []) }
{
    let mut items = Vec::new(alloc);
    if items.push(first).is_err() {
        return None;
    }
    if items.push(second).is_err() {
        return None;
    }
    Some(items)
}
