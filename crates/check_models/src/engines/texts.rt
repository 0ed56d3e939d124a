// The JSON of made-up facts and requests.
use crate::draws::Draw;
use crate::lists::add;
use std::alloc::{AllocError, Global};

const DEF: &str =
    r#"{"name":"d","resources":[{"name":"database","level":1,"excludesSupported":true},{"name":"table","level":2,"parent":"database","recursiveSupported":true}],"accessTypes":[{"name":"select"},{"name":"drop"},{"name":"all","impliedGrants":["select","drop"]}],"dataMaskDef":{"maskTypes":[{"name":"MASK","transformer":"mask({col})"},{"name":"HASH","transformer":"hash"},{"name":"MASK_NONE"}],"accessTypes":[{"name":"select"},{"name":"drop"},{"name":"all"}]},"rowFilterDef":{"accessTypes":[{"name":"select"},{"name":"drop"},{"name":"all"}]}}"#;

const TAG_DEF: &str =
    r#"{"name":"tag","resources":[{"name":"tag"}],"accessTypes":[{"name":"d:select"},{"name":"d:drop"},{"name":"d:all","impliedGrants":["d:select","d:drop"]}],"dataMaskDef":{"maskTypes":[{"name":"MASK","transformer":"mask({col})"},{"name":"HASH","transformer":"hash"},{"name":"MASK_NONE"}],"accessTypes":[{"name":"d:select"},{"name":"d:drop"},{"name":"d:all"}]},"rowFilterDef":{"accessTypes":[{"name":"d:select"},{"name":"d:drop"},{"name":"d:all"}]}}"#;

const USERS: [&str; 3] = ["ann", "bob", "eve"];

const GROUPS: [&str; 2] = ["staff", "ops"];

const ACCESSES: [&str; 3] = ["select", "drop", "all"];

/// Whom an item is for.
const SUBJECTS: [&str; 8] = [
    r#""users":["ann"]"#,
    r#""users":["bob"]"#,
    r#""users":["{USER}"]"#,
    r#""users":["{OWNER}"]"#,
    r#""groups":["staff"]"#,
    r#""groups":["public"]"#,
    r#""roles":["r1"]"#,
    r#""roles":["r2"]"#,
];

const TAGS: [&str; 3] = ["PII", "PCI", "EXP"];

const TAG_VALUES: [&str; 5] = ["PII", "PCI", "P*", "*", "?XP"];

const DATABASES: [&str; 4] = ["a", "ab", "b", "ann"];

const DATABASE_VALUES: [&str; 6] = ["a", "a*", "b", "*", "?", "{USER}"];

const ROW_VALUES: [&str; 5] = ["a", "ab", "a*", "*", "b"];

const TABLES: [&str; 3] = ["t", "t/x", "u"];

const TABLE_VALUES: [&str; 4] = ["t", "*", "u", "t*"];

const MASKS: [&str; 3] = ["MASK", "HASH", "MASK_NONE"];

const ZONES: [&str; 4] = ["", "", "z1", "z2"];

/// Types of policies, of which access policies are the most.
const KINDS: [&str; 8] = ["0", "0", "0", "0", "0", "1", "1", "2"];

const ITEMS: [&str; 4] = [
    "policyItems",
    "policyItems",
    "policyItems",
    "denyPolicyItems",
];

const OTHER_ITEMS: [&str; 4] = [
    "allowExceptions",
    "denyExceptions",
    "policyItems",
    "denyPolicyItems",
];

/// The ids of policies, of tag policies and of tag rows, from the first to the one behind the last.
pub(crate) const POLICY_IDS: (u32, u32) = (1, 9);

pub(crate) const TAG_POLICY_IDS: (u32, u32) = (11, 15);

pub(crate) const ROW_IDS: (u32, u32) = (1, 5);

type Made = Result<String, AllocError>;

// ---- policies

/// An item of any list; a list takes of its mask and its filter what it has use for.
fn item(alloc: Global, draw: Draw, prefix: &str) -> Made {
    let subject = draw.one_of(0, &SUBJECTS);
    let access = draw.one_of(1, &ACCESSES);
    let mask = draw.one_of(2, &MASKS);
    let filter = draw.one_of(3, &TABLES);
    format!(in alloc;
        "{{{subject},\"accesses\":[{{\"type\":\"{prefix}{access}\"}}],\"dataMaskInfo\":{{\"dataMaskType\":\"{mask}\"}},\"rowFilterInfo\":{{\"filterExpr\":\"{filter}\"}}}}"
    )
}

/// The lists that a policy of this type has. Of equal lists the second counts.
fn lists(alloc: Global, draw: Draw, kind: &str, prefix: &str) -> Made {
    let first = item(alloc, draw.part(1), prefix)?;
    let second = item(alloc, draw.part(2), prefix)?;
    match kind {
        "1" => format!(in alloc; "\"dataMaskPolicyItems\":[{first},{second}]"),
        "2" => format!(in alloc; "\"rowFilterPolicyItems\":[{first},{second}]"),
        _ => {
            let items = draw.one_of(3, &ITEMS);
            let others = draw.one_of(4, &OTHER_ITEMS);
            format!(in alloc; "\"{items}\":[{first}],\"{others}\":[{second}]")
        }
    }
}

/// The levels of a map.
fn levels(alloc: Global, draw: Draw, is_tag: bool) -> Made {
    if is_tag {
        let tag = draw.one_of(0, &TAG_VALUES);
        return format!(in alloc; "\"tag\":{{\"values\":[\"{tag}\"]}}");
    }
    let database = draw.one_of(0, &DATABASE_VALUES);
    let excludes = draw.once_in(1, 8);
    let table = table(alloc, draw)?;
    format!(in alloc;
        "\"database\":{{\"values\":[\"{database}\"],\"isExcludes\":{excludes}}}{table}"
    )
}

/// The table of every other map.
fn table(alloc: Global, draw: Draw) -> Made {
    if draw.once_in(2, 2) {
        return Ok(String::new(alloc));
    }
    let table = draw.one_of(3, &TABLE_VALUES);
    let recursive = draw.once_in(4, 3);
    format!(in alloc; ",\"table\":{{\"values\":[\"{table}\"],\"isRecursive\":{recursive}}}")
}

/// The maps of a policy, seldom two.
fn maps(alloc: Global, draw: Draw, is_tag: bool) -> Made {
    let first = levels(alloc, draw.part(2), is_tag)?;
    if !draw.once_in(4, 4) {
        return format!(in alloc; "\"resources\":{{{first}}}");
    }
    let second = levels(alloc, draw.part(3), is_tag)?;
    format!(in alloc; "\"resources\":{{{first}}},\"additionalResources\":[{{{second}}}]")
}

fn policy(alloc: Global, draw: Draw, id: u32, is_tag: bool) -> Made {
    let (service, prefix) = if is_tag { ("t", "d:") } else { ("s", "") };
    let kind = draw.one_of(0, &KINDS);
    let priority = u32::from(draw.once_in(1, 4));
    let maps = maps(alloc, draw, is_tag)?;
    let zone = draw.one_of(5, &ZONES);
    let enabled = !draw.once_in(6, 8);
    let audited = !draw.once_in(7, 4);
    let denies_else = kind == "0" && draw.once_in(8, 16);
    let lists = lists(alloc, draw.part(9), kind, prefix)?;
    format!(in alloc;
        "{{\"id\":{id},\"service\":\"{service}\",\"policyType\":{kind},\"policyPriority\":{priority},{maps},\"zoneName\":\"{zone}\",\"isEnabled\":{enabled},\"isAuditEnabled\":{audited},\"isDenyAllElse\":{denies_else},{lists}}}"
    )
}

/// The policies; two of three ids are taken.
fn policies(alloc: Global, draw: Draw, ids: (u32, u32), is_tag: bool) -> Made {
    let mut list = String::new(alloc);
    for id in ids.0..ids.1 {
        let place = u64::from(id);
        if !draw.part(0).once_in(place, 3) {
            let one = policy(alloc, draw.part(place), id, is_tag)?;
            add(&mut list, one.as_str())?;
        }
    }
    Ok(list)
}

// ---- tags, roles and zones

fn tag_row(alloc: Global, draw: Draw, id: u32) -> Made {
    let database = draw.one_of(0, &ROW_VALUES);
    let tag = draw.one_of(1, &TAGS);
    let other = draw.one_of(2, &TAGS);
    format!(in alloc;
        "{{\"id\":{id},\"serviceName\":\"s\",\"resourceElements\":{{\"database\":{{\"values\":[\"{database}\"]}}}},\"tags\":[{{\"type\":\"{tag}\"}},{{\"type\":\"{other}\"}}]}}"
    )
}

/// The tag rows; two of three ids are taken.
fn tag_rows(alloc: Global, draw: Draw) -> Made {
    let mut list = String::new(alloc);
    for id in ROW_IDS.0..ROW_IDS.1 {
        let place = u64::from(id);
        if !draw.part(0).once_in(place, 3) {
            let one = tag_row(alloc, draw.part(place), id)?;
            add(&mut list, one.as_str())?;
        }
    }
    Ok(list)
}

/// A role that holds a user and a group, and the roles below it or none.
fn role(alloc: Global, draw: Draw, name: &str, below: &str) -> Made {
    let user = draw.one_of(0, &USERS);
    let group = draw.one_of(1, &GROUPS);
    let below = if draw.once_in(2, 2) { below } else { "" };
    format!(in alloc;
        "{{\"name\":\"{name}\",\"users\":[\"{user}\"],\"groups\":[\"{group}\"],\"roles\":[{below}]}}"
    )
}

fn zone(alloc: Global, name: &str, database: &str) -> Made {
    format!(in alloc;
        "{{\"name\":\"{name}\",\"services\":{{\"s\":{{\"resources\":[{{\"database\":[\"{database}\"]}}]}}}},\"tagServices\":[\"t\"]}}"
    )
}

/// The JSON of made-up facts.
pub(crate) fn facts(alloc: Global, draw: Draw) -> Made {
    let policies = policies(alloc, draw.part(0), POLICY_IDS, false)?;
    let tag_policies = self::policies(alloc, draw.part(1), TAG_POLICY_IDS, true)?;
    let rows = tag_rows(alloc, draw.part(2))?;
    let fallback = draw.once_in(3, 2);
    let zone_one = zone(alloc, "z1", draw.one_of(4, &["ab", "ab*", "an*"]))?;
    let zone_two = zone(alloc, "z2", draw.one_of(5, &["b", "b*", "z"]))?;
    let role_one = role(alloc, draw.part(6), "r1", "\"r2\"")?;
    let role_two = role(alloc, draw.part(7), "r2", "")?;
    format!(in alloc;
        "{{\"service\":\"s\",\"fallback\":{fallback},\"serviceDef\":{DEF},\"tagServiceDef\":{TAG_DEF},\"policies\":[{policies}],\"tagPolicies\":[{tag_policies}],\"zones\":[{zone_one},{zone_two}],\"roles\":[{role_one},{role_two}],\"resources\":[{rows}]}}"
    )
}

/// The JSON of a made-up request.
pub(crate) fn request(alloc: Global, draw: Draw) -> Made {
    let database = draw.one_of(0, &DATABASES);
    let table = draw.one_of(2, &TABLES);
    let user = draw.one_of(3, &USERS);
    let group = draw.one_of(4, &GROUPS);
    let owner = draw.one_of(5, &USERS);
    let access = draw.one_of(6, &ACCESSES);
    let below = if draw.once_in(1, 2) {
        format!(in alloc; ",\"table\":\"{table}\"")?
    } else {
        String::new(alloc)
    };
    format!(in alloc;
        "{{\"user\":\"{user}\",\"userGroups\":[\"{group}\"],\"resource\":{{\"elements\":{{\"database\":\"{database}\"{below}}},\"ownerUser\":\"{owner}\"}},\"accessType\":\"{access}\"}}"
    )
}
