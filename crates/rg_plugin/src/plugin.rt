// What a plugin decides by, and how a round renews it.
ghost use Rattle.std.specs.Prelude.{◌≡◌, ◌≤◌, ◌<◌, ◌⊎◌, ◌∷◌, ◌||◌, [], false, true, IfOk, IfErr, IsErrOf, OnOk, OnErr, length, replicate};
ghost use Rattle.rg_facts.specs.Sound.{sound};
ghost use Rattle.rg_cache.specs.Kept.{kept_text};
ghost use Rattle.rg_cache.specs.Places.{Holds};
ghost use Rattle.rg_publish.specs.Passes.{Ends, new_pass};
ghost use Rattle.rg_publish.specs.Publications.{publication};
ghost use Rattle.rg_plugin.specs.Following.{HasFailed, HasFollowed, HasPublished, HasSettledAt, HasStrayed, IsUnfit};

use crate::cause::{cause_of, is_delta};
use rg_base::{NoMemory, Serial, Steps, Text, TryCopy};
use rg_cache::{Cache, CacheFault, keep};
use rg_facts::Facts;
use rg_facts_check::facts_fault;
use rg_follow::{FollowFault, begin, renew};
use rg_health::Cause;
use rg_ports::Link;
use rg_publish::{Engine, Pass, Publisher};
use rg_remote::Remote;
use std::alloc::Global;
use std::marker::Model;
use std::sync::Wait;

/// What a plugin decides by, where it keeps it, and for which service. Contracts see its publications and what its cache holds.
#[derive(Drop)]
pub struct Plugin<K: Cache + Drop, R: Wait + Drop> {
    publisher: Publisher<R>,
    cache: K,
    service: Text,
    /// Whether the next round begins from no version, since a delta didn't fit what was had.
    is_anew: bool,
    /// Whether the newest publication is still to be kept.
    is_unkept: bool,
}

impl<K: Cache + Drop, R: Wait + Drop> Model for Plugin<K, R> {
    ghost use Rattle.rg_plugin.specs.Following.{Following};

    ghost Value = { Following };

    ghost view = { λ p. record {
      published = p.publisher;
      held = K.held p.cache;
      faults = K.faults p.cache;
      service = p.service;
      is_anew = p.is_anew;
      is_unkept = p.is_unkept;
    } };
}

impl<K: Cache + Drop, R: Wait + Drop> Plugin<K, R> {
    /// These sound facts as publication 1, with 1 to 64 passes. Where memory is refused all is let go.
    pub fn open(
        rt: R,
        alloc: Global,
        cache: K,
        service: Text,
        facts: Facts,
        passes: u32,
    ) -> Result<(Plugin<K, R>, Vec<Pass>), NoMemory>
        requires sound { sound facts ≡ true }
        requires passes { (1 ≤ passes) × (passes ≤ 64) }
        ensures published { IfOk result (λ t. t.0.published.list ≡ publication 1 0 facts ∷ []) }
        ensures passes { IfOk result (λ t. t.1.items ≡ replicate passes (new_pass t.0.published)) }
        ensures rest { IfOk result (λ t. (t.0.held ≡ K.held cache)
            × (t.0.faults ≡ K.faults cache) × (t.0.service ≡ service)
            × (t.0.is_anew ≡ false) × (t.0.is_unkept ≡ true)) }
    {
        let engine = match Engine::build(alloc, facts, &mut Steps::silent()) {
            Ok(engine) => engine,
            Err(NoMemory) => {
                drop(cache);
                drop(service);
                drop(rt);
                return Err(NoMemory);
            }
        };
        match rg_publish::begin(rt, alloc, engine, passes) {
            Ok((publisher, passes)) => {
                let plugin = Plugin {
                    publisher,
                    cache,
                    service,
                    is_anew: false,
                    is_unkept: true,
                };
                Ok((plugin, passes))
            }
            Err(NoMemory) => {
                drop(cache);
                drop(service);
                Err(NoMemory)
            }
        }
    }

    /// The number of the newest publication.
    pub fn serial(&self) -> Serial
        ensures { result.0 ≡ length self.now.published.list }
    {
        self.publisher.serial()
    }

    /// The engine of the newest publication.
    pub fn newest(&self) -> &Engine
        ensures { Ends self.now.published.list (λ p. result.now ≡ p.facts) }
    {
        self.publisher.newest()
    }

    /// Whether the newest publication is still to be kept.
    pub fn is_unkept(&self) -> bool
        ensures { result ≡ self.now.is_unkept }
    {
        self.is_unkept
    }

    // What a round settles at; None where it found nothing changed.
    fn settle<T: Link + Drop>(
        &self,
        alloc: Global,
        remote: &mut Remote<T>,
    ) -> Result<Option<Facts>, FollowFault>
        ensures settled { IfOk result (λ facts. HasSettledAt self.now facts remote.old remote.new) }
        ensures strayed { IfErr result (λ f. HasStrayed self.now f remote.old remote.new) }
    {
        if !self.is_anew {
            return renew(alloc, remote, self.publisher.newest());
        }
        let service = match self.service.try_copy(alloc) {
            Ok(service) => service,
            Err(NoMemory) => return Err(FollowFault::NoMemory),
        };
        match begin(alloc, remote, service) {
            Ok(facts) => Ok(Some(facts)),
            Err(fault) => Err(fault),
        }
    }

    // Publishes these facts, unless they break a rule that holds of all facts.
    fn publish(&mut self, alloc: Global, facts: Facts) -> Result<(), Cause>
        ensures same { (self.new.published.book ≡ self.old.published.book)
            × (self.new.held ≡ self.old.held) × (self.new.faults ≡ self.old.faults)
            × (self.new.service ≡ self.old.service) × (self.new.is_anew ≡ self.old.is_anew) }
        ensures unkept { OnOk result (self.new.is_unkept ≡ true) }
        ensures kept { OnErr result (self.new.is_unkept ≡ self.old.is_unkept) }
        ensures published { OnOk result (HasPublished self.old.published facts self.new.published) }
        ensures failed { IfErr result (λ cause. (self.new.published.list ≡ self.old.published.list)
            × IsUnfit facts cause) }
    {
        match facts_fault(alloc, &facts) {
            Ok(false) => {}
            Ok(true) => {
                drop(facts);
                return Err(Cause::Unsound);
            }
            Err(NoMemory) => {
                drop(facts);
                return Err(Cause::Memory);
            }
        }
        let engine = match Engine::build(alloc, facts, &mut Steps::silent()) {
            Ok(engine) => engine,
            Err(NoMemory) => return Err(Cause::Memory),
        };
        match self.publisher.publish(alloc, engine, 0) {
            Ok(_) => {
                self.is_unkept = true;
                Ok(())
            }
            Err(NoMemory) => Err(Cause::Memory),
        }
    }

    /// Asks the administration until nothing changes any more, and publishes what that leads to. True where something is published.
    /// After a delta that doesn't fit the next round begins from no version.
    pub fn follow<T: Link + Drop>(
        &mut self,
        alloc: Global,
        remote: &mut Remote<T>,
    ) -> Result<bool, Cause>
        ensures same { (self.new.published.book ≡ self.old.published.book)
            × (self.new.held ≡ self.old.held) × (self.new.faults ≡ self.old.faults)
            × (self.new.service ≡ self.old.service) }
        ensures unkept { IfOk result
            (λ changed. self.new.is_unkept ≡ (changed || self.old.is_unkept)) }
        ensures kept { OnErr result (self.new.is_unkept ≡ self.old.is_unkept) }
        ensures followed { IfOk result
            (λ changed. HasFollowed self.old changed self.new remote.old remote.new) }
        ensures failed { IfErr result
            (λ cause. HasFailed self.old cause self.new remote.old remote.new) }
    {
        match self.settle(alloc, remote) {
            Ok(None) => Ok(false),
            Ok(Some(facts)) => match self.publish(alloc, facts) {
                Ok(()) => {
                    self.is_anew = false;
                    Ok(true)
                }
                Err(cause) => Err(cause),
            },
            Err(fault) => {
                let cause = cause_of(&fault);
                drop(fault);
                self.is_anew = self.is_anew || is_delta(cause);
                Err(cause)
            }
        }
    }

    /// Keeps the newest publication for a restart.
    pub fn keep_newest(&mut self, alloc: Global) -> Result<(), CacheFault>
        ensures same { (self.new.published ≡ self.old.published)
            × (self.new.service ≡ self.old.service) × (self.new.is_anew ≡ self.old.is_anew) }
        ensures kept { OnOk result (Ends self.old.published.list
            (λ p. Holds self.old.held self.new.held (kept_text p.facts))) }
        ensures fault { OnErr result (Ends self.old.published.list (λ p. (self.new.held
            ≡ self.old.held) ⊎ Holds self.old.held self.new.held (kept_text p.facts))) }
        ensures failed { IsErrOf result CacheFault.Failed → self.old.faults < self.new.faults }
        ensures none { OnOk result (self.new.is_unkept ≡ false) }
        ensures unkept { OnErr result (self.new.is_unkept ≡ self.old.is_unkept) }
    {
        let Ok(facts) = self.publisher.newest().facts(alloc) else {
            return Err(CacheFault::NoMemory);
        };
        let kept = keep(alloc, &mut self.cache, &facts);
        drop(facts);
        match kept {
            Ok(()) => {
                self.is_unkept = false;
                Ok(())
            }
            Err(fault) => Err(fault),
        }
    }
}
