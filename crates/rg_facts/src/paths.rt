// The resource of a request as text.
ghost use Rattle.std.specs.Prelude.{◌≡◌, [], IfOk, None, map, option_map, unwrap_or};
ghost use Rattle.std.specs.List.{filter_map, find, join_with_byte, last_or};
ghost use Rattle.std.specs.Str.{bytes_eq, chars};
ghost use Rattle.rg_policy.specs.declared.request.Element.{Element};
ghost use Rattle.rg_resmatch.specs.Tests.{value_at};
ghost use Rattle.rg_facts.specs.Texts.{value_of_place, values_along};
ghost use Rattle.rg_facts.specs.Joining.{after_value};

use rg_base::{NoMemory, Text, TryCopy, same_text};
use rg_defs::Level;
use rg_policy::Element;
use std::alloc::Global;

fn element_at<'a>(elements: &'a [Element], name: &str) -> Option<&'a Element>
    ensures { option_map (λ e. e.now) result
        ≡ find (λ (e : Element). bytes_eq e.level (chars name.now)) elements.now }
{
    elements
        .iter()
        .find(|element| same_text(element.level.as_str(), name))
}

fn value_at<'a>(elements: &'a [Element], name: &str) -> Option<&'a Text>
    ensures { option_map (λ t. t.now) result ≡ value_at elements.now (chars name.now) }
{
    match element_at(elements, name) {
        Some(element) => Some(&element.value),
        None => None,
    }
}

/// The value that the elements have for the level at this place.
fn value_of_place<'a>(levels: &[Level], elements: &'a [Element], place: usize) -> Option<&'a Text>
    ensures { option_map (λ t. t.now) result ≡ value_of_place levels.now elements.now place }
{
    match levels.get(place) {
        Some(level) => value_at(elements, level.name.as_str()),
        None => None,
    }
}

/// The text with one more value, behind a `/` where it isn't the first.
fn after_value(
    alloc: Global,
    text: Option<Text>,
    value: Option<&Text>,
) -> Result<Option<Text>, NoMemory>
    ensures { IfOk result
        (λ longer. longer ≡ after_value text (option_map (λ t. t.now) value.entry)) }
{
    let Some(value) = value else {
        return Ok(text);
    };
    let Some(mut text) = text else {
        return Ok(Some(value.try_copy(alloc)?));
    };
    text.push('/')?;
    text.append(value.as_str())?;
    Ok(Some(text))
}

/// The values of the levels on the path that the elements name, from the root, joined by `/`.
fn joined_on(
    alloc: Global,
    levels: &[Level],
    elements: &[Element],
    path: &[u32],
) -> Result<Text, NoMemory>
    ensures { IfOk result (λ t. t
        ≡ join_with_byte 47 (filter_map (value_of_place levels.now elements.now) path.now)) }
{
    let mut text = None;
    for place in path {
        text = after_value(
            alloc,
            text,
            value_of_place(levels, elements, *place as usize),
        )?;
    }
    Ok(or_empty(alloc, text))
}

/// All values in the order of the elements, joined by `/`.
fn all_joined(alloc: Global, elements: &[Element]) -> Result<Text, NoMemory>
    ensures { IfOk result
        (λ t. t ≡ join_with_byte 47 (map (λ (e : Element). e.value) elements.now)) }
{
    let mut text = None;
    for element in elements {
        text = after_value(alloc, text, Some(&element.value))?;
    }
    Ok(or_empty(alloc, text))
}

fn or_empty(alloc: Global, text: Option<Text>) -> Text
    ensures { result ≡ unwrap_or text [] }
{
    match text {
        Some(text) => text,
        None => Text::empty(alloc),
    }
}

/// The resource as text: the values from the root where the levels of all elements lie on this path, else in order.
pub(crate) fn joined(
    alloc: Global,
    levels: &[Level],
    elements: &[Element],
    path: Option<&[u32]>,
) -> Result<Text, NoMemory>
    ensures { IfOk result (λ t. t ≡ join_with_byte 47
        (values_along levels.now elements.now (option_map (λ p. p.now) path.entry))) }
{
    match path {
        Some(path) => joined_on(alloc, levels, elements, path),
        None => all_joined(alloc, elements),
    }
}

/// The value of the deepest level on the path that the elements name.
fn deepest_on<'a>(levels: &[Level], elements: &'a [Element], path: &[u32]) -> Option<&'a Text>
    ensures { option_map (λ t. t.now) result
        ≡ last_or None (filter_map (value_of_place levels.now elements.now) path.now) }
{
    let mut deepest = None;
    for place in path {
        deepest = value_of_place(levels, elements, *place as usize).or(deepest);
    }
    deepest
}

fn last_value(elements: &[Element]) -> Option<&Text>
    ensures { option_map (λ t. t.now) result
        ≡ last_or None (map (λ (e : Element). e.value) elements.now) }
{
    match elements.last() {
        Some(element) => Some(&element.value),
        None => None,
    }
}

/// The last of these values, that of the deepest level. None where there is none.
pub(crate) fn deepest<'a>(
    levels: &[Level],
    elements: &'a [Element],
    path: Option<&[u32]>,
) -> Option<&'a Text>
    ensures { option_map (λ t. t.now) result
        ≡ last_or None (values_along levels.now elements.now (option_map (λ p. p.now) path.entry)) }
{
    match path {
        Some(path) => deepest_on(levels, elements, path),
        None => last_value(elements),
    }
}
