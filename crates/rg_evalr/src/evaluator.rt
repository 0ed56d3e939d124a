// The evaluator of one policy.
ghost use Rattle.std.specs.Prelude.{◌≡◌, ◌&&◌, ◌<◌, ◌^◌, List, None, IfOk, IfSome, length, not, option_map, position};
ghost use Rattle.std.specs.List.{list_any};
ghost use Rattle.rg_base.specs.Counts.{one_compile};
ghost use Rattle.rg_policy.specs.declared.policy.Item.{Item};
ghost use Rattle.rg_cond.specs.Spans.{contains};
ghost use Rattle.rg_evalr.specs.Compiled.{IsCompiled, compiled_items, compiled_matches};
ghost use Rattle.rg_evalr.specs.Compiling.{policy_fault};
ghost use Rattle.rg_evalr.specs.Effects.{access_of, effect_of, in_play, is_scheduled, is_valid, item_of, lies_on};
ghost use Rattle.rg_evalr.specs.Frames.{def_of};
ghost use Rattle.rg_evalr.specs.Items.{all_hold, any_matches, context, first_item};
ghost use Rattle.rg_evalr.specs.Tries.{TriesAtMost};
ghost use Rattle.rg_evalr.specs.declared.frame.Frame.{Frame};
ghost use Rattle.rg_evalr.specs.declared.frame.Side.{Side};

use crate::compile::{compile_conditions, compile_items, compile_placed, read_spans};
use crate::frame::{Effect, Frame, Side, def_of};
use crate::item::{CompiledItem, Context, all_hold};
use rg_base::{Ledger, NoMemory, Seq, Steps};
use rg_cond::{Condition, Span};
use rg_policy::{AccessRequest, Policy, Tag};
use rg_resmatch::{Matcher, Reach, fitting_policy_matches};
use rg_roles::Roles;
use std::alloc::Global;
use std::marker::Model;
use std::snapshot::Snapshot;

/// What is kept of a policy.
pub(crate) struct Parts {
    pub enabled: bool,
    pub deny_all_else: bool,
    pub spans: Seq<Span>,
    pub matcher: Matcher,
    pub conditions: Seq<Condition>,
    pub items: Seq<CompiledItem>,
    pub deny_items: Seq<CompiledItem>,
    pub allow_exceptions: Seq<CompiledItem>,
    pub deny_exceptions: Seq<CompiledItem>,
    pub mask_items: Seq<CompiledItem>,
    pub filter_items: Seq<CompiledItem>,
}

impl Drop for Parts {
    fn drop(self) {
        let Self {
            enabled: _,
            deny_all_else: _,
            spans: _,
            matcher: _,
            conditions: _,
            items: _,
            deny_items: _,
            allow_exceptions: _,
            deny_exceptions: _,
            mask_items: _,
            filter_items: _,
        } = self;
    }
}

/// A policy compiled, so that asking it takes no memory. Contracts see what it was compiled from. It knows no roles.
pub struct Evaluator {
    frame: Snapshot<Frame>,
    policy: Snapshot<Policy>,
    side: Side,
    parts: Parts,
}

impl Drop for Evaluator {
    fn drop(self) {
        let Self {
            frame: _,
            policy: _,
            side: _,
            parts: _,
        } = self;
    }
}

impl Model for Evaluator {
    ghost use Rattle.rg_evalr.specs.Sources.{Source};

    ghost Value = { Source };

    ghost use Rattle.rg_evalr.specs.Compiled.{IsCompiled};

    ghost view = { λ e. record { frame = e.frame.value; policy = e.policy.value; side = e.side } };

    ghost invariant = { λ e. IsCompiled
        (record { frame = e.frame.value; policy = e.policy.value; side = e.side }) e.parts };
}

fn any_contains(spans: &[Span], context: &Context) -> bool
    ensures { result ≡ list_any (λ span. contains span context.now.request.moment) spans.now }
{
    spans
        .iter()
        .any(|span| span.contains(context.request.moment))
}

/// Whether there is no span, or one that contains the request's moment.
fn is_scheduled(spans: &[Span], context: &Context) -> bool
    ensures { result ≡ is_scheduled (λ span. contains span context.now.request.moment) spans.now }
{
    spans.is_empty() || any_contains(spans, context)
}

fn any_compiled(items: &[CompiledItem], context: &Context) -> bool
    ensures { result ≡ list_any (compiled_matches context.now) items.now }
{
    items.iter().any(|item| item.matches(context))
}

/// Whether one of the items matches that these were compiled from.
fn any_matches(items: &Seq<CompiledItem>, context: &Context) -> bool
    ensures { (frame : Frame) (side : Side) (written : List Item) → items.now
        ≡ compiled_items frame side written → result ≡ any_matches frame side context.now written }
{
    any_compiled(items.as_slice(), context)
}

fn place_of(items: &[CompiledItem], context: &Context) -> Option<usize>
    ensures first { result ≡ position (compiled_matches context.now) items.now }
    ensures within { IfSome result (λ place. place < length items.now) }
{
    items.iter().position(|item| item.matches(context))
}

fn first_compiled(items: &[CompiledItem], context: &Context) -> Option<u32>
    requires { length items.now < 2 ^ 32 }
    ensures { result ≡ position (compiled_matches context.now) items.now }
{
    match place_of(items, context) {
        Some(place) => Some(place as u32),
        None => None,
    }
}

/// The place of the first of the items that matches, of which these were compiled.
fn first_item(items: &Seq<CompiledItem>, context: &Context) -> Option<u32>
    requires { length items.now.items < 2 ^ 32 }
    ensures { (frame : Frame) (side : Side) (written : List Item) → items.now
        ≡ compiled_items frame side written → result ≡ first_item frame side context.now written }
{
    first_compiled(items.as_slice(), context)
}

impl Evaluator {
    /// The side that the policy stands on.
    pub fn side(&self) -> Side
        ensures { result ≡ self.now.side }
    {
        self.side
    }

    fn compile_parts(
        alloc: Global,
        frame: &Frame,
        policy: &Policy,
        side: Side,
    ) -> Result<Parts, NoMemory>
        requires rules { policy_fault frame.now side policy.now ≡ None }
        ensures { IfOk result (λ parts. IsCompiled
            (record { frame = frame.now; policy = policy.now; side = side }) parts) }
    {
        fitting_policy_matches();
        let def = def_of(frame, side);
        Ok(Parts {
            enabled: policy.enabled,
            deny_all_else: policy.deny_all_else,
            spans: read_spans(alloc, policy.schedules.as_slice(), &frame.time_zones)?,
            matcher: Matcher::of_policy(alloc, def, policy, Reach::Exact)?,
            conditions: compile_conditions(alloc, def, policy.conditions.as_slice())?,
            items: compile_items(alloc, frame, side, policy.items.as_slice())?,
            deny_items: compile_items(alloc, frame, side, policy.deny_items.as_slice())?,
            allow_exceptions: compile_items(
                alloc,
                frame,
                side,
                policy.allow_exceptions.as_slice(),
            )?,
            deny_exceptions: compile_items(alloc, frame, side, policy.deny_exceptions.as_slice())?,
            mask_items: compile_placed(alloc, frame, side, policy.mask_items.as_slice())?,
            filter_items: compile_placed(alloc, frame, side, policy.filter_items.as_slice())?,
        })
    }

    /// The evaluator of a policy that passes the rules V3 to V9, V11 and V12 under the frame. Exactly one compile is counted.
    /// Mask items or filter items past the places of 32 bits find no memory.
    pub fn compile<L: Ledger>(
        alloc: Global,
        frame: &Frame,
        policy: &Policy,
        side: Side,
        steps: &mut Steps<L>,
    ) -> Result<Evaluator, NoMemory>
        requires rules { policy_fault frame.now side policy.now ≡ None }
        ensures source { IfOk result
            (λ e. e ≡ record { frame = frame.now; policy = policy.now; side = side }) }
        ensures steps { steps.new ≡ one_compile steps.old }
    {
        steps.compile();
        let parts = Evaluator::compile_parts(alloc, frame, policy, side)?;
        Ok(Evaluator {
            frame: Snapshot::of(frame),
            policy: Snapshot::of(policy),
            side,
            parts,
        })
    }

    fn lies_on<L: Ledger>(&self, context: &Context, steps: &mut Steps<L>) -> bool
        ensures answer { result ≡ lies_on self.now.frame self.now.side context.now self.now.policy }
        ensures tries { TriesAtMost 1 steps.old steps.new }
    {
        let user = context.request.user.as_str();
        let matcher = &self.parts.matcher;
        match self.side {
            Side::Resource => matcher.matches(&context.request.resource, user, steps),
            Side::Tag => match context.tag {
                Some(tag) => matcher.matches_tag(tag.kind.as_str(), user, steps),
                None => false,
            },
        }
    }

    /// Whether there is no schedule, or one that contains the request's moment.
    fn is_scheduled(&self, context: &Context) -> bool
        ensures { result
            ≡ is_scheduled (is_valid self.now.frame context.now) self.now.policy.schedules.items }
    {
        is_scheduled(self.parts.spans.as_slice(), context)
    }

    /// Whether the conditions of the policy hold.
    fn conditions_hold(&self, context: &Context) -> bool
        ensures { result
            ≡ all_hold self.now.frame self.now.side context.now self.now.policy.conditions.items }
    {
        all_hold(context, self.parts.conditions.as_slice())
    }

    /// Whether the policy is in play. Its resources are asked before its conditions.
    fn is_in_play<L: Ledger>(&self, context: &Context, steps: &mut Steps<L>) -> bool
        ensures answer { result ≡ in_play self.now.frame self.now.side context.now self.now.policy }
        ensures tries { TriesAtMost 1 steps.old steps.new }
    {
        self.parts.enabled
            && (self.is_scheduled(context)
                && (self.lies_on(context, steps) && self.conditions_hold(context)))
    }

    /// Whether a deny item matches and no deny exception does.
    fn denies(&self, context: &Context) -> bool
        ensures { result
            ≡ (any_matches self.now.frame self.now.side context.now self.now.policy.deny_items.items
            && not (any_matches self.now.frame self.now.side context.now self.now.policy.deny_exceptions.items)) }
    {
        any_matches(&self.parts.deny_items, context)
            && !any_matches(&self.parts.deny_exceptions, context)
    }

    /// Whether an allow item matches and no allow exception does.
    fn allows(&self, context: &Context) -> bool
        ensures { result
            ≡ (any_matches self.now.frame self.now.side context.now self.now.policy.items.items
            && not (any_matches self.now.frame self.now.side context.now self.now.policy.allow_exceptions.items)) }
    {
        any_matches(&self.parts.items, context)
            && !any_matches(&self.parts.allow_exceptions, context)
    }

    /// The effect of the policy in play.
    #[tactic(auto, unfolding(crate::specs::Effects::effect_of))]
    fn effect(&self, context: &Context) -> Effect
        ensures { result ≡ effect_of self.now.frame self.now.side context.now self.now.policy }
    {
        if self.denies(context) {
            return Effect::Deny;
        }
        if self.allows(context) {
            return Effect::Allow;
        }
        if self.parts.deny_all_else {
            Effect::Deny
        } else {
            Effect::Nothing
        }
    }

    /// The effect of the policy, Nothing where it isn't in play. A tag policy is asked for a tag. It takes no memory, and
    /// at most one try is counted.
    #[tactic(auto, unfolding(crate::specs::Effects::access_of))]
    pub fn access<L: Ledger>(
        &self,
        request: &AccessRequest,
        roles: &Roles,
        tag: Option<&Tag>,
        steps: &mut Steps<L>,
    ) -> Effect
        ensures effect { let asked = context request.now roles.now
            (option_map (λ t. t.now) tag.entry) in
            result ≡ access_of self.now.frame self.now.side asked self.now.policy }
        ensures tries { TriesAtMost 1 steps.old steps.new }
    {
        let context = Context {
            request,
            roles,
            tag,
        };
        if self.is_in_play(&context, steps) {
            self.effect(&context)
        } else {
            Effect::Nothing
        }
    }

    /// The place of the first filter item that matches, None where the policy isn't in play. It takes no memory, and at
    /// most one try is counted.
    #[tactic(auto, unfolding(crate::specs::Effects::item_of))]
    pub fn filter_item<L: Ledger>(
        &self,
        request: &AccessRequest,
        roles: &Roles,
        tag: Option<&Tag>,
        steps: &mut Steps<L>,
    ) -> Option<u32>
        ensures place { let asked = context request.now roles.now
            (option_map (λ t. t.now) tag.entry) in
            result ≡ item_of self.now.frame self.now.side asked self.now.policy self.now.policy.filter_items.items }
        ensures tries { TriesAtMost 1 steps.old steps.new }
    {
        let context = Context {
            request,
            roles,
            tag,
        };
        if self.is_in_play(&context, steps) {
            first_item(&self.parts.filter_items, &context)
        } else {
            None
        }
    }

    /// The place of the first mask item that matches, None where the policy isn't in play. It takes no memory, and at most
    /// one try is counted.
    #[tactic(auto, unfolding(crate::specs::Effects::item_of))]
    pub fn mask_item<L: Ledger>(
        &self,
        request: &AccessRequest,
        roles: &Roles,
        tag: Option<&Tag>,
        steps: &mut Steps<L>,
    ) -> Option<u32>
        ensures place { let asked = context request.now roles.now
            (option_map (λ t. t.now) tag.entry) in
            result ≡ item_of self.now.frame self.now.side asked self.now.policy self.now.policy.mask_items.items }
        ensures tries { TriesAtMost 1 steps.old steps.new }
    {
        let context = Context {
            request,
            roles,
            tag,
        };
        if self.is_in_play(&context, steps) {
            first_item(&self.parts.mask_items, &context)
        } else {
            None
        }
    }
}
