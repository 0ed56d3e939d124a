// Numbers for what resource maps say and for what a policy is called.
ghost use Rattle.std.specs.Prelude.{◌≡◌, ◌/◌, ◌^◌, ◌∷◌, [], max};
ghost use Rattle.std.specs.Str.{chars};
ghost use Rattle.rg_policy.specs.Maps.{maps_of};
ghost use Rattle.rg_same_resources.specs.Prints.{ended, hash_from, marked, mixed, name_print_of, no_marks, print_of, prints_of, raised_mark, with_levels, with_maps, with_texts};

use rg_base::{Seq, Text, split_char};
use rg_policy::{Policy, PolicyResource, ResourceMap};

/// The golden ratio, by which a product's high bits depend on all bits of the factor.
const SPREAD: u64 = 0x9E37_79B9_7F4A_7C15;

/// As many as nine bits tell apart. Maps of fewer values mostly have each value's hash among the marks.
const MARKS: usize = 512;

/// One more than the last character.
const END: u64 = 0x11_0000;

/// The prints of a policy: of its maps, and of its name in its service and zone.
#[derive(Clone, Copy)]
pub struct Prints {
    pub maps: u64,
    pub name: u64,
}

/// The hash of a text to which the character is added.
fn mixed(hash: u64, c: u64) -> u64
    ensures { result ≡ mixed hash c }
{
    hash.wrapping_add(c).wrapping_mul(SPREAD)
}

/// The hash of the text behind what the first hash is of.
fn hash_from(first: u64, text: &str) -> u64
    ensures { result ≡ hash_from first (chars text.now) }
{
    let mut hash = first;
    let mut rest = text;
    'characters: while let Some((c, later)) = split_char(rest) {
        hash = mixed(hash, c as u64);
        rest = later;
    }
    hash
}

fn hash_of_marks(marks: &[u64]) -> u64
    ensures { result ≡ hash_from 1 marks.now }
{
    let mut hash = 1;
    for mark in marks {
        hash = mixed(hash, *mark);
    }
    hash
}

fn higher(mark: u64, hash: u64) -> u64
    ensures { result ≡ max mark hash }
{
    if mark < hash { hash } else { mark }
}

#[tactic(auto, using(crate::proofs::Marks::set_behind))]
fn raise_mark(marks: &mut [u64], place: usize, hash: u64)
    ensures { marks.new ≡ raised_mark marks.old place hash }
{
    if place >= marks.len() {
        return;
    }
    marks[place] = higher(marks[place], hash);
}

/// Takes the hash into its mark.
#[tactic(auto, unfolding(crate::specs::Prints::marked))]
fn take_hash(marks: &mut [u64], hash: u64)
    ensures { marks.new ≡ marked marks.old hash }
{
    raise_mark(marks, (hash >> 55) as usize, hash);
}

fn take_texts(marks: &mut [u64], seed: u64, texts: &[Text])
    ensures { marks.new ≡ with_texts seed marks.old texts.now }
{
    for text in texts {
        take_hash(marks, hash_from(seed, text.as_str()));
    }
}

fn take_levels(marks: &mut [u64], levels: &[PolicyResource])
    ensures { marks.new ≡ with_levels marks.old levels.now }
{
    for resource in levels {
        let seed = hash_from(1, resource.level.as_str());
        take_texts(marks, seed, resource.values.as_slice());
    }
}

fn take_maps(marks: &mut [u64], maps: &[ResourceMap])
    ensures { marks.new ≡ with_maps marks.old maps.now }
{
    for map in maps {
        take_levels(marks, map.levels.as_slice());
    }
}

/// The hash of all marks, begun without any.
fn hash_of_maps(marks: &mut [u64], levels: &Seq<PolicyResource>, additional: &[ResourceMap]) -> u64
    ensures { result
        ≡ hash_from 1 (with_maps marks.old (record { levels = levels.now } ∷ additional.now)) }
{
    take_levels(marks, levels.as_slice());
    take_maps(marks, additional);
    hash_of_marks(marks)
}

/// The print of one map and more.
#[tactic(auto, unfolding(crate::specs::Prints::print_of, crate::specs::Prints::no_marks))]
fn print_of_maps(levels: &Seq<PolicyResource>, additional: &[ResourceMap]) -> u64
    ensures { result ≡ print_of (record { levels = levels.now } ∷ additional.now) }
{
    let mut marks = [0u64; MARKS];
    hash_of_maps(&mut marks, levels, additional)
}

/// The print of the policy's maps. Maps that are the same have the same print. The more values maps have in common, the more
/// often maps that differ have it too: two lists of some hundred values that differ in one seldom do.
pub fn print_of(policy: &Policy) -> u64
    ensures { result ≡ print_of (maps_of policy.now) }
{
    print_of_maps(&policy.resources, policy.additional.as_slice())
}

/// The print of one map.
pub fn print_of_map(levels: &Seq<PolicyResource>) -> u64
    ensures { result ≡ print_of (record { levels = levels.now } ∷ []) }
{
    print_of_maps(levels, &[])
}

/// The hash of a text to which a mark is added that is no character.
fn ended(hash: u64) -> u64
    ensures { result ≡ ended hash }
{
    mixed(hash, END)
}

/// The print of the policy's name in its service and zone.
#[tactic(auto, unfolding(crate::specs::Prints::name_print_of))]
pub fn name_print_of(policy: &Policy) -> u64
    ensures { result ≡ name_print_of policy.now }
{
    let service = ended(hash_from(1, policy.service.as_str()));
    let zone = ended(hash_from(service, policy.zone.as_str()));
    hash_from(zone, policy.name.as_str())
}

/// The prints of the policy.
pub fn prints_of(policy: &Policy) -> Prints
    ensures { result ≡ prints_of policy.now }
{
    Prints {
        maps: print_of(policy),
        name: name_print_of(policy),
    }
}
