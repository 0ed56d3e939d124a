// What the access entries of an item grant, each access written out once.
ghost use Rattle.std.specs.Prelude.{◌≡◌, ◌++◌, IfOk, option_map, option_to_list};
ghost use Rattle.std.specs.Str.{chars};
ghost use Rattle.rg_base.specs.Listed.{listed};
ghost use Rattle.rg_evalr.specs.Granted.{all_granted, granted, granted_by, of_component, past_component};

use crate::frame::{Frame, Side, def_of};
use rg_base::{NoMemory, Seq, Text, TryCopy, split_char};
use rg_defs::{ServiceDef, access_type_of};
use rg_policy::AccessEntry;
use std::alloc::Global;

/// The list with copies of these texts behind it.
fn with_texts(alloc: Global, mut list: Seq<Text>, texts: &[Text]) -> Result<Seq<Text>, NoMemory>
    requires { list ≡ listed list.items }
    ensures { IfOk result (λ longer. longer ≡ listed (list.items ++ texts.now)) }
{
    for text in texts {
        list.add(text.try_copy(alloc)?)?;
    }
    Ok(list)
}

/// The list with what the entry grants behind it.
fn with_granted(
    alloc: Global,
    def: &ServiceDef,
    mut list: Seq<Text>,
    entry: &AccessEntry,
) -> Result<Seq<Text>, NoMemory>
    requires { list ≡ listed list.items }
    ensures { IfOk result (λ longer. longer ≡ listed (list.items ++ granted_by def.now entry.now)) }
{
    if !entry.allowed {
        return Ok(list);
    }
    list.add(entry.access.try_copy(alloc)?)?;
    match access_type_of(def, entry.access.as_str()) {
        Some(kind) => with_texts(alloc, list, kind.implied.as_slice()),
        None => Ok(list),
    }
}

/// What the entries grant.
fn all_granted(
    alloc: Global,
    def: &ServiceDef,
    entries: &[AccessEntry],
) -> Result<Seq<Text>, NoMemory>
    ensures { IfOk result (λ list. list ≡ listed (all_granted def.now entries.now)) }
{
    let mut list = Seq::new(alloc);
    for entry in entries {
        list = with_granted(alloc, def, list, entry)?;
    }
    Ok(list)
}

/// What follows the component and `:` in a text that begins with them.
fn past_component<'a>(text: &'a str, component: &str) -> Option<&'a str>
    ensures { option_map (λ t. chars t.now) result
        ≡ past_component (chars text.now) (chars component.now) }
{
    let mut text = text;
    let mut component = component;
    'characters: loop {
        let Some((first, rest)) = split_char(text) else {
            return None;
        };
        match split_char(component) {
            None => return if first == ':' { Some(rest) } else { None },
            Some((wanted, others)) => {
                if first != wanted {
                    return None;
                }
                text = rest;
                component = others;
            }
        }
    }
}

/// The list with a copy of the text behind it, where there is one.
fn with_some(alloc: Global, mut list: Seq<Text>, text: Option<&str>) -> Result<Seq<Text>, NoMemory>
    requires { list ≡ listed list.items }
    ensures { IfOk result (λ longer. longer
        ≡ listed (list.items ++ option_to_list (option_map (λ t. chars t.now) text.entry))) }
{
    if let Some(text) = text {
        list.add(Text::copy_of(alloc, text)?)?;
    }
    Ok(list)
}

/// The accesses of the component.
fn of_component(alloc: Global, component: &str, texts: &[Text]) -> Result<Seq<Text>, NoMemory>
    ensures { IfOk result (λ list. list ≡ listed (of_component (chars component.now) texts.now)) }
{
    let mut list = Seq::new(alloc);
    for text in texts {
        list = with_some(alloc, list, past_component(text.as_str(), component))?;
    }
    Ok(list)
}

/// The accesses for which a policy of the side may be asked and that the entries grant.
pub(crate) fn granted(
    alloc: Global,
    frame: &Frame,
    side: Side,
    entries: &[AccessEntry],
) -> Result<Seq<Text>, NoMemory>
    ensures { IfOk result (λ list. list ≡ listed (granted frame.now side entries.now)) }
{
    let all = all_granted(alloc, def_of(frame, side), entries)?;
    match side {
        Side::Resource => Ok(all),
        Side::Tag => of_component(alloc, frame.def.name.as_str(), all.as_slice()),
    }
}
