// Laws of zones, each the contract of a function that does nothing.
ghost use Rattle.std.specs.Prelude.{◌≡◌, ◌∷◌, ◌++◌, true, false, ℕ, Bool, List, IsTrue, filter, is_none};
ghost use Rattle.std.specs.List.{list_any};
ghost use Rattle.rg_base.specs.Texts.{all_distinct};
ghost use Rattle.rg_defs.specs.declared.service_def.ServiceDef.{ServiceDef};
ghost use Rattle.rg_zone_rules.specs.declared.row.ZoneRow.{ZoneRow};
ghost use Rattle.rg_zone_rules.specs.Overlap.{ZonesOverlap, first_overlap, zone_patterns, zone_scalars, zone_texts, zones_overlap};
ghost use Rattle.rg_zone_rules.specs.Rules.{maps_fit};

use rg_pattern::{
    overlap_is_decided as pattern_overlap_is_decided, stands_is_decided, twin_keeps,
    user_plays_no_part,
};

/// The computed test decides whether two zones whose maps for the service pass their rules overlap. That the common
/// resource has values of Unicode scalar values takes that the zones' values are such texts, as those of every `Text`
/// are.
pub fn overlap_is_decided()
    ensures shown { (service : List ℕ) (def : ServiceDef) (a b : ZoneRow)
        → maps_fit service def a ≡ true → maps_fit service def b ≡ true
        → ZonesOverlap service def a b → IsTrue (zones_overlap service def a b) }
    ensures found { (service : List ℕ) (def : ServiceDef) (a b : ZoneRow)
        → maps_fit service def a ≡ true → maps_fit service def b ≡ true
        → IsTrue (zone_texts a) → IsTrue (zone_texts b) → IsTrue (zones_overlap service def a b) → ZonesOverlap service def a b }
{
    compiled_overlap_is_decided();
    twin_keeps();
}

/// Of two zones each overlaps the other, or neither does.
pub fn zone_overlap_is_symmetric()
    ensures { (service : List ℕ) (def : ServiceDef) (a b : ZoneRow)
        → zones_overlap service def a b ≡ zones_overlap service def b a }
{}

/// No pair is found exactly where no zone of the list overlaps one after it.
pub fn zones_apart_by_pairs()
    ensures { (service : List ℕ) (def : ServiceDef) (zones : List ZoneRow) → is_none
        (first_overlap service def zones) ≡ all_distinct (zones_overlap service def) zones }
{}

/// Of fewer zones none overlap where none did.
pub fn fewer_zones_stay_apart()
    ensures { (service : List ℕ) (def : ServiceDef) (p : ZoneRow → Bool) (zones : List ZoneRow)
        → all_distinct (zones_overlap service def) zones ≡ true
        → all_distinct (zones_overlap service def) (filter p zones) ≡ true }
{}

/// A zone that overlaps none of the others may be put in the place of one, or among them.
pub fn replaced_zone_stays_apart()
    ensures { (service : List ℕ) (def : ServiceDef)
        (before old after : List ZoneRow) (zone : ZoneRow)
        → all_distinct (zones_overlap service def) (before ++ (old ++ after)) ≡ true
        → list_any (zones_overlap service def zone) (before ++ after) ≡ false → all_distinct (zones_overlap service def) (before ++ zone ∷ after) ≡ true }
{}

/// The same of zones whose patterns have characters of Unicode scalar values.
pub(crate) fn compiled_overlap_is_decided()
    ensures shown { (service : List ℕ) (def : ServiceDef) (a b : ZoneRow)
        → maps_fit service def a ≡ true → maps_fit service def b ≡ true
        → ZonesOverlap service def a b → IsTrue (zones_overlap service def a b) }
    ensures found { (service : List ℕ) (def : ServiceDef) (a b : ZoneRow)
        → maps_fit service def a ≡ true → maps_fit service def b ≡ true
        → IsTrue (zone_scalars (zone_patterns service def a)) → IsTrue (zone_scalars (zone_patterns service def b)) → IsTrue (zones_overlap service def a b)
        → ZonesOverlap service def a b }
{
    stands_is_decided();
    twin_keeps();
    user_plays_no_part();
    pattern_overlap_is_decided();
}
