// How a policy stands to what is asked.
ghost use Rattle.std.specs.Prelude.{◌≡◌, IfOk, true};
ghost use Rattle.std.specs.List.{list_any};
ghost use Rattle.rg_policy.specs.declared.policy.Policy.{Policy};
ghost use Rattle.rg_evalr.specs.Effects.{access_of, in_play, is_scheduled, is_valid};
ghost use Rattle.rg_standing.specs.Asking.{Asked};
ghost use Rattle.rg_standing.specs.Standing.{effect_told, is_told_in_play, standing_of};

use crate::maps::{is_near, misses, some_lies};
use crate::question::Question;
use crate::reason::Standing;
use rg_base::{NoMemory, TryCopy};
use rg_cond::Schedule;
use rg_defs::PathedDef;
use rg_evalr::Effect;
use rg_policy::{Policy, ScheduleText, maps_of};
use std::alloc::Global;

impl<'a> Question<'a> {
    /// Whether the schedule contains the request's moment.
    fn is_valid(&self, alloc: Global, schedule: &ScheduleText) -> Result<bool, NoMemory>
        ensures { IfOk result (λ b. b ≡ is_valid self.now.frame self.now.context schedule.now) }
    {
        match Schedule::read(alloc, schedule, &self.frame.time_zones) {
            Ok(span) => Ok(span.contains(self.request.moment)),
            Err(_) => Err(NoMemory),
        }
    }

    fn any_valid(&self, alloc: Global, schedules: &[ScheduleText]) -> Result<bool, NoMemory>
        ensures { IfOk result
            (λ b. b ≡ list_any (is_valid self.now.frame self.now.context) schedules.now) }
    {
        for schedule in schedules {
            if self.is_valid(alloc, schedule)? {
                return Ok(true);
            }
        }
        Ok(false)
    }

    /// Whether there is no schedule, or one that contains the request's moment.
    fn is_scheduled(&self, alloc: Global, schedules: &[ScheduleText]) -> Result<bool, NoMemory>
        ensures { IfOk result
            (λ b. b ≡ is_scheduled (is_valid self.now.frame self.now.context) schedules.now) }
    {
        match schedules {
            [] => Ok(true),
            _ => self.any_valid(alloc, schedules),
        }
    }

    /// How the policy stands to what is asked. It takes memory for what it reads of the policy, and lets it go.
    #[tactic(auto, unfolding(crate::specs::Standing::standing_of))]
    pub fn standing_of(&self, alloc: Global, policy: &Policy) -> Result<Standing, NoMemory>
        ensures { IfOk result (λ s. s ≡ standing_of self.now policy.now) }
    {
        let def = self.def();
        let user = self.request.user.as_str();
        let maps = maps_of(alloc, policy)?;
        if !is_near(alloc, def, user, self.elements, maps.as_slice())? {
            return Ok(Standing::FarOff);
        }
        if !policy.enabled {
            return Ok(Standing::Disabled);
        }
        if !self.is_scheduled(alloc, policy.schedules.as_slice())? {
            return Ok(Standing::Unscheduled);
        }
        let pathed = PathedDef {
            def,
            paths: self.paths,
        };
        if !some_lies(alloc, &pathed, maps.as_slice(), self.elements, user)? {
            let kept_out = misses(alloc, def, user, self.elements, maps.as_slice())?;
            return Ok(Standing::Elsewhere(kept_out));
        }
        match self.first_failing(alloc, policy.conditions.as_slice())? {
            Some(condition) => Ok(Standing::Unmet(condition.name.try_copy(alloc)?)),
            None => Ok(Standing::InPlay(self.matches_of(alloc, policy)?)),
        }
    }
}

impl Standing {
    /// The effect of an access policy that stands so: Nothing where it isn't in play.
    pub fn effect(&self, policy: &Policy) -> Effect
        ensures { result ≡ effect_told self.now policy.now.deny_all_else }
    {
        match self {
            Standing::InPlay(matches) => matches.effect(policy.deny_all_else),
            _ => Effect::Nothing,
        }
    }
}
