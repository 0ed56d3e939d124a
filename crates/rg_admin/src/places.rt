// The places of names, by which things of a list are found and put without going over it.
ghost use Rattle.std.specs.Prelude.{◌≡◌, ◌<◌, ◌∷◌, ◌++◌, ℕ, List, [], IfSome, None, OnOk, length, map, option_map, position};
ghost use Rattle.std.specs.List.{find};
ghost use Rattle.std.specs.Str.{bytes_eq, chars};
ghost use Rattle.rg_base.specs.Listed.{listed};
ghost use Rattle.rg_base.specs.Places.{IsIndex, place_in};
ghost use Rattle.rg_base.specs.Texts.{is_among};
ghost use Rattle.rg_cmd.specs.Lists.{put};
ghost use Rattle.rg_admin.specs.Tight.{IsTightList};

use crate::lists::{append, replace_at};
use rg_base::{Named, NoMemory, Seq, Text};
use std::alloc::Global;
use std::collections::BTreeMap;

/// The first place of each name.
pub(crate) type Places = BTreeMap<String, usize>;

/// The place of the name.
pub(crate) fn place_at(places: &Places, name: &str) -> Option<usize>
    ensures { (names : List (List ℕ)) → IsIndex places.now names
        → result ≡ place_in names (chars name.now) }
{
    places.get(name).copied()
}

/// Whether the name has a place.
pub(crate) fn has_place(places: &Places, name: &Text) -> bool
    ensures { (names : List (List ℕ)) → IsIndex places.now names
        → result ≡ is_among name.now names }
{
    place_at(places, name.as_str()).is_some()
}

/// The place of the thing of this name.
fn place_of<T: Named>(list: &[T], places: &Places, name: &str) -> Option<usize>
    requires { IsIndex places.now (map T.named list.now) }
    ensures first { result ≡ position (λ x. bytes_eq (T.named x) (chars name.now)) list.now }
    ensures within { IfSome result (λ place. place < length list.now) }
{
    place_at(places, name)
}

/// The thing of this name.
pub(crate) fn find_placed<'a, T: Named>(list: &'a [T], places: &Places, name: &str) -> Option<&'a T>
    requires { IsIndex places.now (map T.named list.now) }
    ensures { option_map (λ t. t.now) result
        ≡ find (λ x. bytes_eq (T.named x) (chars name.now)) list.now }
{
    match place_of(list, places, name) {
        Some(place) => Some(&list[place]),
        None => None,
    }
}

/// Gives a name that has none this place.
fn insert(alloc: Global, places: &mut Places, name: &str, place: usize) -> Result<(), NoMemory>
    ensures { OnOk result ((names : List (List ℕ)) → IsIndex places.old names
        → place_in names (chars name.now) ≡ None → place ≡ length names
        → IsIndex places.new (names ++ chars name.now ∷ [])) }
{
    let Ok(key) = String::from_str(alloc, name) else {
        return Err(NoMemory);
    };
    let Ok(_) = places.insert(key, place) else {
        return Err(NoMemory);
    };
    Ok(())
}

/// Adds a thing of a new name at the end.
pub(crate) fn add_placed<T: Named + Drop>(
    alloc: Global,
    list: &mut Seq<T>,
    places: &mut Places,
    item: T,
) -> Result<(), NoMemory>
    requires spare { list.old.spare ≡ 0 }
    requires new { place_in (map T.named list.old.items) (T.named item) ≡ None }
    requires placed { IsIndex places.old (map T.named list.old.items) }
    ensures ok { OnOk result (list.new ≡ listed (list.old.items ++ item ∷ [])) }
    ensures placed { OnOk result (IsIndex places.new (map T.named list.new.items)) }
{
    insert(alloc, places, item.name(), list.len())?;
    append(list, item)
}

/// Puts the thing in the place of the one that has its name, or else at the end.
pub(crate) fn put_placed<T: Named + Drop>(
    alloc: Global,
    list: &mut Seq<T>,
    places: &mut Places,
    item: T,
) -> Result<(), NoMemory>
    requires tight { IsTightList (λ a b. bytes_eq (T.named b) (T.named a)) list.old }
    requires placed { IsIndex places.old (map T.named list.old.items) }
    ensures ok { OnOk result (list.new
        ≡ listed (put (λ x. bytes_eq (T.named x) (T.named item)) item list.old.items)) }
    ensures placed { OnOk result (IsIndex places.new (map T.named list.new.items)) }
{
    match place_at(places, item.name()) {
        Some(place) => {
            replace_at(alloc, list, place, item);
            Ok(())
        }
        None => add_placed(alloc, list, places, item),
    }
}
