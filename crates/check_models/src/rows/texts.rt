// The texts of decisions.
//
// `text|ELEMENTS|SIDE|PLACE`: the path, and the mask's type, its expression and the row filter, with `-` for none, of a request that is
// allowed, and gets the mask and the row filter of the item at this place. The items are those of one policy of the side.
// `template|TEMPLATE|ELEMENTS`: the expression of a mask that brings its own.
// `denial|ELEMENTS`: what a request gets that no policy allows: the access, the policy, the serial, the versions, the row filter and
// the mask.
use super::Table;
use super::asked::request;
use crate::reading;
use rg_base::{NoMemory, Serial, Text};
use rg_evalr::Side;
use rg_facts::{Access, Choice, Decision, Facts, Outcome, Published};
use rg_policy::Policy;
use rg_shared::Shared;
use rg_wire::access_word;
use std::alloc::Global;

const FACTS: &str =
    r#"{"service":"hive1","policyVersion":3,"tagVersion":4,"roleVersion":5,"serviceDef":{"name":"hive","resources":[{"name":"database","level":10},{"name":"url","level":10},{"name":"table","level":20,"parent":"database"},{"name":"udf","level":20,"parent":"database"},{"name":"column","level":30,"parent":"table"}],"accessTypes":[{"name":"select"}],"dataMaskDef":{"maskTypes":[{"name":"MASK","transformer":"mask({col})"},{"name":"CUSTOM"}]}},"tagServiceDef":{"name":"tag","resources":[{"name":"tag"}],"accessTypes":[{"name":"select"}],"dataMaskDef":{"maskTypes":[{"name":"MASK","transformer":"tagged({col})"}]}},"policies":[{"id":10,"policyType":1,"dataMaskPolicyItems":[{"dataMaskInfo":{"dataMaskType":"MASK","valueExpr":"never"}},{"dataMaskInfo":{"dataMaskType":"CUSTOM","valueExpr":"left({col}, 2)"}},{"dataMaskInfo":{"dataMaskType":"OTHER","valueExpr":"never"}}],"rowFilterPolicyItems":[{"rowFilterInfo":{"filterExpr":"dept = '{col}'"}},{"rowFilterInfo":{"filterExpr":"true"}},{"rowFilterInfo":{"filterExpr":"false"}}]}],"tagPolicies":[{"id":10,"policyType":1,"dataMaskPolicyItems":[{"dataMaskInfo":{"dataMaskType":"MASK","valueExpr":"never"}}],"rowFilterPolicyItems":[{"rowFilterInfo":{"filterExpr":"tagged"}}]}]}"#;

/// A policy of one item, whose mask brings this template.
fn policy_of(alloc: Global, template: &str) -> Result<Policy, NoMemory> {
    let text = format!(in alloc;
        "{{\"id\":10,\"policyType\":1,\"dataMaskPolicyItems\":[{{\"dataMaskInfo\":{{\"dataMaskType\":\"CUSTOM\",\"valueExpr\":\"{template}\"}}}}]}}"
    )?;
    reading::policy(alloc, text.as_str())
}

/// The first of the policies with a place in it.
fn choice<'a>(policies: &'a [Shared<Policy>], side: Side, place: u32) -> Option<Choice<'a>> {
    match policies.first() {
        Some(policy) => Some(Choice {
            policy,
            side,
            place,
        }),
        None => None,
    }
}

/// What a text is written as.
fn written(text: &Option<Text>) -> &str {
    match text {
        Some(text) => text.as_str(),
        None => "-",
    }
}

/// The type and the expression of the mask.
fn mask_of(decision: &Decision) -> (&str, &str) {
    match &decision.mask {
        Some(mask) => (mask.kind.as_str(), mask.expr.as_str()),
        None => ("-", ""),
    }
}

/// Facts with a policy of each side.
#[derive(Drop)]
pub(super) struct TextTable {
    facts: Facts,
}

impl TextTable {
    pub(super) fn start(alloc: Global) -> Result<TextTable, NoMemory> {
        let facts = reading::facts(alloc, FACTS)?;
        Ok(TextTable { facts })
    }

    /// The decision that this outcome makes of a request for these elements.
    fn decision(
        &self,
        alloc: Global,
        elements: &str,
        outcome: &Outcome,
    ) -> Result<Decision, NoMemory> {
        let request = request(alloc, elements)?;
        let paths = reading::paths(alloc, &self.facts.def)?;
        let published = Published::of(&self.facts, &paths, Serial(2));
        outcome.decision(alloc, &published, &request)
    }

    fn policies(&self, side: Side) -> &[Shared<Policy>] {
        match side {
            Side::Tag => self.facts.tag_policies.as_slice(),
            Side::Resource => self.facts.policies.as_slice(),
        }
    }

    fn text(&self, alloc: Global, asked: &str) -> Result<String, NoMemory> {
        let mut fields = asked.split('|');
        let elements = fields.next().unwrap_or("");
        let side = match fields.next() {
            Some("tag") => Side::Tag,
            _ => Side::Resource,
        };
        let place = fields.next().unwrap_or("").parse::<u32>().unwrap_or(0);
        let policies = self.policies(side);
        let outcome = Outcome {
            access: Access::Allowed,
            policy: None,
            filter: choice(policies, side, place),
            mask: choice(policies, side, place),
        };
        let decision = self.decision(alloc, elements, &outcome)?;
        let path = decision.path.as_str();
        let (kind, expr) = mask_of(&decision);
        let filter = written(&decision.filter);
        Ok(format!(in alloc; "{path}|{kind}|{expr}|{filter}")?)
    }

    fn template(&self, alloc: Global, asked: &str) -> Result<String, NoMemory> {
        let (template, elements) = asked.split_once('|').unwrap_or((asked, ""));
        let policy = policy_of(alloc, template)?;
        let outcome = Outcome {
            access: Access::Allowed,
            policy: None,
            filter: None,
            mask: Some(Choice {
                policy: &policy,
                side: Side::Resource,
                place: 0,
            }),
        };
        let decision = self.decision(alloc, elements, &outcome)?;
        let (_, expr) = mask_of(&decision);
        Ok(String::from_str(alloc, expr)?)
    }

    fn denial(&self, alloc: Global, elements: &str) -> Result<String, NoMemory> {
        let outcome = Outcome {
            access: Access::Denied,
            policy: None,
            filter: None,
            mask: None,
        };
        let decision = self.decision(alloc, elements, &outcome)?;
        let access = access_word(decision.access);
        let policy = decision.policy.0;
        let serial = decision.serial.0;
        let policies = decision.policy_version.0;
        let tags = decision.tag_version.0;
        let roles = decision.role_version.0;
        let filter = written(&decision.filter);
        let (mask, _) = mask_of(&decision);
        Ok(format!(in alloc;
            "{access} by {policy}, serial {serial}, versions {policies} {tags} {roles}, row filter {filter}, mask {mask}"
        )?)
    }
}

impl Table for TextTable {
    fn answer(&mut self, alloc: Global, word: &str, asked: &str) -> Result<String, NoMemory> {
        match word {
            "text" => self.text(alloc, asked),
            "template" => self.template(alloc, asked),
            "denial" => self.denial(alloc, asked),
            _ => Err(NoMemory),
        }
    }
}
