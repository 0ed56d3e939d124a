// Rows about what enrichers add to the context of a request.
ghost use Rattle.std.specs.Prelude.{[], option_map};
ghost use Rattle.rg_base.specs.Pairs.{value_of};

use crate::rows::{field, names, pair, told};
use rg_base::{Moment, NoMemory, Pair, Seq, Text, TryCopy, value_of};
use rg_hook::{AuditFan, Enricher, Enrichers, FixedPair, PairRow, SubjectPairs, WorkerHooks};
use rg_policy::{AccessRequest, Resource};
use std::alloc::Global;

/// Adds what stands under a key once more, under another.
#[derive(Drop)]
struct SecondKey {
    key: Text,
    other: Text,
}

impl Enricher for SecondKey {
    ghost remembered = { λ e. [] };

    ghost meaning = { λ e numbers request. record {
      remembered = [];
      pair = option_map (λ value.
          record { key = e.other; value = value }) (value_of e.key request.context.items);
    } };

    fn enrich(&mut self, alloc: Global, request: &AccessRequest) -> Result<Option<Pair>, NoMemory> {
        match value_of(request.context.as_slice(), self.key.as_str()) {
            Some(value) => Ok(Some(Pair {
                key: self.other.try_copy(alloc)?,
                value: value.try_copy(alloc)?,
            })),
            None => Ok(None),
        }
    }
}

fn second_key(alloc: Global, key: &str, other: &str) -> Result<SecondKey, NoMemory> {
    Ok(SecondKey {
        key: Text::copy_of(alloc, key)?,
        other: Text::copy_of(alloc, other)?,
    })
}

/// Each name with a pair of this key.
fn rows(alloc: Global, key: &str, named: &[(&str, &str)]) -> Result<Seq<PairRow>, NoMemory> {
    let mut rows = Seq::new(alloc);
    for (name, value) in named {
        rows.add(PairRow {
            name: Text::copy_of(alloc, name)?,
            pair: pair(alloc, key, value)?,
        })?;
    }
    Ok(rows)
}

/// Of the two rows of one user the first counts, and of those of two groups that the asker has.
fn subjects(alloc: Global) -> Result<SubjectPairs, NoMemory> {
    Ok(SubjectPairs {
        users: rows(alloc, "desk", &[("ann", "7"), ("ann", "8")])?,
        groups: rows(alloc, "team", &[("sales", "s"), ("audit", "a")])?,
    })
}

/// A request of the user with these groups, which has a pair of its own.
fn request(alloc: Global, user: &str, groups: &str) -> Result<AccessRequest, NoMemory> {
    let mut context = Seq::new(alloc);
    context.add(pair(alloc, "from", "app")?)?;
    Ok(AccessRequest {
        user: Text::copy_of(alloc, user)?,
        groups: names(alloc, groups)?,
        resource: Resource {
            elements: Seq::new(alloc),
            owner: Text::empty(alloc),
        },
        access: Text::copy_of(alloc, "select")?,
        moment: Moment(0),
        address: Text::empty(alloc),
        context,
    })
}

/// Takes only what may go to another thread.
fn may_be_sent<T: Send>(_hooks: &T) {}

fn told_context(alloc: Global, context: &[Pair]) -> Result<String, NoMemory> {
    let mut answer = String::new(alloc);
    for pair in context {
        write!(answer, "{}={} ", pair.key.as_str(), pair.value.as_str())?;
    }
    Ok(answer)
}

/// `enrich|USER|GROUPS`: the context of the enriched request. The enricher `early` comes before the pair that it would take up, `late`
/// behind it.
fn tell_enriched(alloc: Global, row: &str) -> Result<String, NoMemory> {
    let mut list: Vec<Box<dyn Enricher + Send>> = Vec::new(alloc);
    let tier = FixedPair {
        pair: pair(alloc, "tier", "gold")?,
    };
    list.push(Box::new(alloc, second_key(alloc, "tier", "early")?)?)?;
    list.push(Box::new(alloc, tier)?)?;
    list.push(Box::new(alloc, subjects(alloc)?)?)?;
    list.push(Box::new(alloc, second_key(alloc, "team", "late")?)?)?;
    let mut hooks = WorkerHooks {
        sinks: AuditFan::new(Vec::new(alloc)),
        enrichers: Enrichers::new(list),
    };
    may_be_sent(&hooks);
    let mut request = request(alloc, field(row, 1), field(row, 2))?;
    hooks.enrichers.run(alloc, &mut request)?;
    told_context(alloc, request.context.as_slice())
}

pub(crate) fn answer(alloc: Global, row: &str) -> Result<String, NoMemory> {
    match field(row, 0) {
        "enrich" => tell_enriched(alloc, row),
        _ => told(alloc, "no such row"),
    }
}
