// Lists and maps in key order.
ghost use Rattle.std.specs.Prelude.{◌≡◌, true, IfSome};
ghost use Rattle.std.specs.Str.{chars, encode_utf8_all};
ghost use Rattle.std.specs.Ordering.{nat_cmp};
ghost use Rattle.std.specs.declared.cmp.Ordering.TheVariants.{Less};
ghost use Rattle.std.specs.Cmp.Lexicographic.{slice_cmp};
ghost use Rattle.rg_json.specs.Own.{EachOf, OwnList};
ghost use Rattle.rg_ask_wire.specs.KeyOrder.{AreInOrder, OwnMap};

use crate::ordered::Ordered;
use rg_base::{Named, Seq};
use std::cmp::Ordering;

#[tactic(auto, using(rg_json::proofs::Owned::owns))]
fn check_each<T: Ordered>(items: &[T]) -> Option<()>
    ensures { IfSome result (λ u. EachOf T.in_order items.now) }
{
    for item in items {
        item.check()?;
    }
    Some(())
}

impl<T: Ordered> Ordered for Seq<T> {
    ghost in_order = { OwnList T.in_order };

    fn check(&self) -> Option<()> {
        if self.is_reserved() {
            return None;
        }
        check_each(self.as_slice())
    }
}

/// Whether the bytes of a text are before those of the other.
fn is_before(a: &str, b: &str) -> bool
    ensures { result ≡ true
        → slice_cmp nat_cmp (encode_utf8_all (chars a.now)) (encode_utf8_all (chars b.now)) ≡ Less }
{
    matches!(a.cmp(b), Ordering::Less)
}

/// Whether the names are distinct, and stand in the order of their bytes.
fn is_sorted<T: Named>(items: &[T]) -> bool
    ensures { result ≡ true → AreInOrder T.named items.now }
{
    for place in 1..items.len() {
        if !is_before(items[place - 1].name(), items[place].name()) {
            return false;
        }
    }
    true
}

/// None where a list that is printed as a map isn't in key order.
pub(crate) fn check_map<T: Ordered + Named>(map: &Seq<T>) -> Option<()>
    ensures { IfSome result (λ u. OwnMap T.named T.in_order map.now) }
{
    map.check()?;
    if is_sorted(map.as_slice()) {
        Some(())
    } else {
        None
    }
}
