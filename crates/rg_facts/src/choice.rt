// The items that masks and row filters are chosen from.
ghost use Rattle.std.specs.Prelude.{◌≡◌, ◌+◌, ◌&&◌, ◌||◌, option_and_then, option_map, if◌then◌else◌};
ghost use Rattle.std.specs.List.{slice_get};
ghost use Rattle.rg_policy.specs.declared.policy.Item.{Item};
ghost use Rattle.rg_facts.specs.Choices.{choice_rank, filter_of, goes_before, mask_of, says_no_mask, side_rank, type_of, unless_no_mask};
ghost use Rattle.rg_facts.specs.Flow.{is_tag, place_of};

use crate::decision::ItemPlace;
use rg_base::{Text, same_text};
use rg_evalr::Side;
use rg_policy::{FILTER_POLICY, Item, MASK_POLICY, MaskInfo, OVERRIDE, Policy};
use std::marker::Model;

/// What a policy of type 1 or 2 gives.
#[derive(Clone, Copy, Debug, PartialEq, Eq)]
pub(crate) enum Kind {
    Mask,
    Filter,
}

impl Kind {
    /// The type of the policies that give it.
    pub(crate) fn policy_type(self) -> i64
        ensures { result ≡ type_of self }
    {
        match self {
            Kind::Mask => MASK_POLICY,
            Kind::Filter => FILTER_POLICY,
        }
    }
}

/// An item that matches: its policy, the side of it, and its place there.
#[derive(Drop)]
pub struct Choice<'a> {
    pub policy: &'a Policy,
    pub side: Side,
    pub place: u32,
}

impl<'a> Model for Choice<'a> {
    ghost use Rattle.rg_facts.specs.Choices.{Choice as Seen};

    ghost Value = { Seen };

    ghost view = { λ c. record { policy = c.policy.now; side = c.side; place = c.place } };
}

fn side_rank(side: Side) -> u8
    ensures { result ≡ side_rank side }
{
    match side {
        Side::Tag => 0,
        Side::Resource => 1,
    }
}

/// Whether the mask is of the type that says that there is none.
#[tactic(auto, using(crate::proofs::Words::no_mask_facts))]
fn says_no_mask(mask: Option<&MaskInfo>) -> bool
    ensures { result ≡ says_no_mask (option_map (λ m. m.now) mask.entry) }
{
    match mask {
        Some(info) => same_text(info.kind.as_str(), "MASK_NONE"),
        None => false,
    }
}

fn item_at<'a>(items: &'a [Item], place: u32) -> Option<&'a Item>
    ensures { option_map (λ i. i.now) result ≡ slice_get items.now place }
{
    items.get(place as usize)
}

impl<'a> Choice<'a> {
    /// Priority 1 goes first, then tags before the resource.
    fn rank(&self) -> u8
        ensures { result ≡ choice_rank self.now }
    {
        let side = side_rank(self.side);
        if self.policy.priority == OVERRIDE {
            side
        } else {
            2 + side
        }
    }

    /// Whether this one goes before the other: by priority and side, then by the id of the policy, then by the place.
    pub(crate) fn goes_before(&self, other: &Choice) -> bool
        ensures { result ≡ goes_before self.now other.now }
    {
        let rank = self.rank();
        let others = other.rank();
        let id = self.policy.id.0;
        let other_id = other.policy.id.0;
        rank < others
            || (rank == others && (id < other_id || (id == other_id && self.place < other.place)))
    }

    /// Where the item stands.
    pub(crate) fn place(&self) -> ItemPlace
        ensures { result ≡ place_of self.now }
    {
        ItemPlace {
            policy: self.policy.id,
            tag: match self.side {
                Side::Tag => true,
                Side::Resource => false,
            },
            item: self.place,
        }
    }

    /// The mask of the item.
    pub(crate) fn mask(&self) -> Option<&'a MaskInfo>
        ensures { option_map (λ m. m.now) result ≡ mask_of self.now }
    {
        let item = item_at(self.policy.mask_items.as_slice(), self.place)?;
        item.mask.as_ref()
    }

    /// The row filter of the item.
    pub(crate) fn filter(&self) -> Option<&'a Text>
        ensures { option_map (λ t. t.now) result ≡ filter_of self.now }
    {
        let item = item_at(self.policy.filter_items.as_slice(), self.place)?;
        item.filter.as_ref()
    }

    /// This choice, None where its item says that there is no mask.
    pub(crate) fn unless_no_mask(self) -> Option<Choice<'a>>
        ensures { result ≡ unless_no_mask self.entry }
    {
        if says_no_mask(self.mask()) {
            None
        } else {
            Some(self)
        }
    }
}
