// Lists changed in place: no item is copied, and nothing but one more item takes memory.
ghost use Rattle.std.specs.Prelude.{◌≡◌, ◌<◌, ◌++◌, ◌∷◌, [], OnErr, OnOk, IfSome, length, position, slice_set};
ghost use Rattle.std.specs.List.{remove};
ghost use Rattle.std.specs.Str.{bytes_eq, chars};
ghost use Rattle.rg_base.specs.Listed.{listed};
ghost use Rattle.rg_cmd.specs.Lists.{put, without};
ghost use Rattle.rg_admin.specs.InPlace.{put_at, without_at};
ghost use Rattle.rg_admin.specs.Tight.{IsTightList};

use rg_base::{Named, NoMemory, Seq, place_named};
use std::alloc::Global;
use std::mem;

/// The items, of which none are left.
fn taken<T>(alloc: Global, list: &mut Seq<T>) -> Vec<T>
    ensures { result.items ≡ list.old.items }
{
    mem::replace(list, Seq::new(alloc)).into_vec()
}

/// Puts the item in the place of the one there.
pub(crate) fn replace_at<T: Drop>(alloc: Global, list: &mut Seq<T>, place: usize, item: T)
    requires { place < length list.old.items }
    ensures { list.new ≡ listed (slice_set list.old.items place item) }
{
    let mut held = taken(alloc, list);
    held[place] = item;
    *list = Seq::from_vec(held);
}

/// Takes the item at the place away.
fn remove_at<T: Drop>(alloc: Global, list: &mut Seq<T>, place: usize)
    requires { place < length list.old.items }
    ensures { list.new ≡ listed (remove list.old.items place) }
{
    let mut held = taken(alloc, list);
    held.remove(place);
    *list = Seq::from_vec(held);
}

/// Adds the item at the end.
pub(crate) fn append<T: Drop>(list: &mut Seq<T>, item: T) -> Result<(), NoMemory>
    requires { list.old.spare ≡ 0 }
    ensures ok { OnOk result (list.new ≡ listed (list.old.items ++ item ∷ [])) }
    ensures err { OnErr result (list.new ≡ list.old) }
{
    list.add(item)
}

/// Puts the item in the place of the one there, or at the end where no place is given.
pub(crate) fn put_at<T: Drop>(
    alloc: Global,
    list: &mut Seq<T>,
    place: Option<usize>,
    item: T,
) -> Result<(), NoMemory>
    requires within { IfSome place (λ p. p < length list.old.items) }
    requires spare { list.old.spare ≡ 0 }
    ensures ok { OnOk result (list.new ≡ listed (put_at place item list.old.items)) }
    ensures err { OnErr result (list.new ≡ list.old) }
{
    match place {
        Some(place) => {
            replace_at(alloc, list, place, item);
            Ok(())
        }
        None => append(list, item),
    }
}

/// Takes the item at the place away, where one is given.
pub(crate) fn take_away<T: Drop>(alloc: Global, list: &mut Seq<T>, place: Option<usize>)
    requires within { IfSome place (λ p. p < length list.old.items) }
    requires spare { list.old.spare ≡ 0 }
    ensures { list.new ≡ listed (without_at place list.old.items) }
{
    if let Some(place) = place {
        remove_at(alloc, list, place);
    }
}

/// The place of the item that has the name of this one.
fn place_of<T: Named>(list: &Seq<T>, item: &T) -> Option<usize>
    ensures first { result
        ≡ position (λ x. bytes_eq (T.named x) (T.named item.now)) list.now.items }
    ensures within { IfSome result (λ p. p < length list.now.items) }
{
    place_named(list.as_slice(), item.name())
}

/// Puts the item in the place of the one that has its name, or else at the end.
pub(crate) fn put_named<T: Named + Drop>(
    alloc: Global,
    list: &mut Seq<T>,
    item: T,
) -> Result<(), NoMemory>
    requires { IsTightList (λ a b. bytes_eq (T.named b) (T.named a)) list.old }
    ensures ok { OnOk result (list.new
        ≡ listed (put (λ x. bytes_eq (T.named x) (T.named item)) item list.old.items)) }
    ensures err { OnErr result (list.new ≡ list.old) }
{
    let place = place_of(list, &item);
    put_at(alloc, list, place, item)
}

/// Takes the item of this name away.
pub(crate) fn remove_named<T: Named + Drop>(alloc: Global, list: &mut Seq<T>, name: &str)
    requires { IsTightList (λ a b. bytes_eq (T.named b) (T.named a)) list.old }
    ensures { list.new
        ≡ listed (without (λ x. bytes_eq (T.named x) (chars name.now)) list.old.items) }
{
    let place = place_named(list.as_slice(), name);
    take_away(alloc, list, place);
}
