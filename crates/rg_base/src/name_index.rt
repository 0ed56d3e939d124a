// Names looked up in a sorted map.
ghost use Rattle.std.specs.Prelude.{◌≡◌, ◌<◌, ◌^◌, ◌∷◌, ◌++◌, ℕ, List, [], length, map, position, IfOk, OnOk, None};
ghost use Rattle.std.specs.List.{list_any};
ghost use Rattle.std.specs.Str.{bytes_eq, chars};
ghost use Rattle.rg_base.specs.Names.{first_repeat};
ghost use Rattle.rg_base.specs.Places.{IsIndex, place_in};
ghost use Rattle.rg_base.specs.Texts.{all_distinct, is_among};

use crate::named::Named;
use crate::numbers::NoMemory;
use crate::text::Text;
use std::alloc::Global;
use std::collections::BTreeMap;
use std::marker::Model;

/// The place in the map.
fn place_at(places: &BTreeMap<String, u32>, name: &str) -> Option<u32>
    ensures { (names : List (List ℕ)) → IsIndex places.now names
        → result ≡ place_in names (chars name.now) }
{
    places.get(name).copied()
}

/// Adds a name that isn't there yet.
fn insert(
    alloc: Global,
    places: &mut BTreeMap<String, u32>,
    name: &str,
    place: u32,
) -> Result<(), NoMemory>
    ensures { OnOk result ((names : List (List ℕ)) → IsIndex places.old names
        → place_in names (chars name.now) ≡ None → place ≡ length names
        → IsIndex places.new (names ++ chars name.now ∷ [])) }
{
    let Ok(key) = String::from_str(alloc, name) else {
        return Err(NoMemory);
    };
    let Ok(_) = places.insert(key, place) else {
        return Err(NoMemory);
    };
    Ok(())
}

/// The first place of each of the names.
fn places_of(alloc: Global, names: &[Text]) -> Result<BTreeMap<String, u32>, NoMemory>
    requires { length names.now < 2 ^ 32 }
    ensures { IfOk result (λ places. IsIndex places names.now) }
{
    let mut places = BTreeMap::new(alloc);
    for (place, name) in names.iter().enumerate() {
        let text = name.as_str();
        if place_at(&places, text).is_none() {
            insert(alloc, &mut places, text, place as u32)?;
        }
    }
    Ok(places)
}

/// Copies of the things' names.
fn names_of<T: Named>(alloc: Global, things: &[T]) -> Result<Vec<Text>, NoMemory>
    ensures { IfOk result (λ names. names.items ≡ map T.named things.now) }
{
    let mut names = Vec::new(alloc);
    for thing in things {
        let name = Text::copy_of(alloc, thing.name())?;
        if names.push(name).is_err() {
            return Err(NoMemory);
        }
    }
    Ok(names)
}

/// A list of names in which one is found by its text, in time that grows as the logarithm of their number. Contracts see
/// the names in their order.
#[derive(Drop)]
pub struct NameIndex {
    names: Vec<Text>,
    places: BTreeMap<String, u32>,
}

impl Model for NameIndex {
    ghost use Rattle.std.specs.Prelude.{◌<◌, ◌^◌, List, ℕ, length};
    ghost use Rattle.rg_base.specs.Places.{IsIndex};

    ghost Value = { List (List ℕ) };

    ghost view = { λ x. x.names.items };

    ghost invariant = { λ x. IsIndex x.places x.names.items × (length x.names.items < 2 ^ 32) };
}

impl NameIndex {
    /// The names of the things, which are copied. More things than have places of 32 bits are want of memory.
    pub fn build<T: Named>(alloc: Global, things: &[T]) -> Result<NameIndex, NoMemory>
        ensures { IfOk result (λ index. index ≡ map T.named things.now) }
    {
        if things.len() > u32::MAX as usize {
            return Err(NoMemory);
        }
        let names = names_of(alloc, things)?;
        let places = places_of(alloc, names.as_slice())?;
        Ok(NameIndex { names, places })
    }

    /// The first place of the name, None where it isn't there. It takes no memory.
    pub fn place_of(&self, name: &str) -> Option<u32>
        ensures { result ≡ position (λ n. bytes_eq n (chars name.now)) self.now }
    {
        place_at(&self.places, name)
    }

    /// Whether the name is there. It takes no memory.
    pub fn contains(&self, name: &str) -> bool
        ensures { result ≡ is_among (chars name.now) self.now }
    {
        place_at(&self.places, name).is_some()
    }

    fn contains_any(&self, names: &[Text]) -> bool
        ensures { result ≡ list_any (λ n. is_among n self.now) names.now }
    {
        names.iter().any(|name| self.contains(name.as_str()))
    }

    /// Whether one of its names is among these, each of which is looked up. It takes no memory.
    pub fn any_among(&self, names: &[Text]) -> bool
        ensures { result ≡ list_any (λ n. is_among n names.now) self.now }
    {
        self.contains_any(names)
    }

    /// The first place of a name that stands before it too, None where no two names are the same. It looks up each name,
    /// and takes no memory.
    pub fn first_repeat(&self) -> Option<u32>
        ensures { result ≡ first_repeat self.now }
    {
        for (place, name) in self.names.iter().enumerate() {
            if place_at(&self.places, name.as_str()) != Some(place as u32) {
                return Some(place as u32);
            }
        }
        None
    }

    /// Whether no two of the names are the same. It looks up each name, and takes no memory.
    pub fn are_distinct(&self) -> bool
        ensures { result ≡ all_distinct (λ x y. bytes_eq y x) self.now }
    {
        self.first_repeat().is_none()
    }
}
