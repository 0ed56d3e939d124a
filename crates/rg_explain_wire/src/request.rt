// What is asked, in JSON.
ghost use Rattle.std.specs.Prelude.{◌≡◌, IfOk};
ghost use Rattle.serde_json.specs.View.{members_view, view};
ghost use Rattle.rg_explain_wire.specs.Printing.{context_data, elements_data, texts_by_name};

use crate::key::Key;
use rg_base::{NoMemory, Pair, Seq, Text};
use rg_json::{Name, ToJson, put, put_value};
use rg_policy::{AccessRequest, Element, Resource};
use serde_json::{Map, Value};
use std::alloc::Global;

/// A text with a name.
trait NamedText {
    ghost use Rattle.std.specs.Prelude.{◌≡◌, List, ℕ};

    /// The name, and the text.
    ghost pair_of: { Self → List ℕ × List ℕ };

    /// Its name.
    fn its_name(&self) -> &Text
        ensures { result.now ≡ (pair_of self.now).0 };

    /// The text.
    fn its_text(&self) -> &Text
        ensures { result.now ≡ (pair_of self.now).1 };
}

impl NamedText for Element {
    ghost pair_of = { λ e. (e.level, e.value) };

    fn its_name(&self) -> &Text {
        &self.level
    }

    fn its_text(&self) -> &Text {
        &self.value
    }
}

impl NamedText for Pair {
    ghost pair_of = { λ p. (p.key, p.value) };

    fn its_name(&self) -> &Text {
        &self.key
    }

    fn its_text(&self) -> &Text {
        &self.value
    }
}

/// The map of the names, filled from the last one, so that of equal names the first stays.
fn texts_by_name<X: NamedText>(alloc: Global, items: &[X]) -> Result<Map<String, Value>, NoMemory>
    ensures { IfOk result (λ m. members_view m.entries ≡ texts_by_name X.pair_of items.now) }
{
    let mut members = Map::new(alloc);
    let mut left = items.len();
    while left > 0 {
        left -= 1;
        let item = &items[left];
        let value = <Text as ToJson<Key>>::json(item.its_text(), alloc)?;
        put_value(alloc, &mut members, item.its_name().as_str(), value)?;
    }
    Ok(members)
}

/// The elements as a map of their levels. Of equal levels the first stays.
#[tactic(auto, unfolding(crate::specs::Printing::elements_data))]
pub(crate) fn elements_json(alloc: Global, elements: &Seq<Element>) -> Result<Value, NoMemory>
    ensures { IfOk result (λ v. view v ≡ elements_data elements.now) }
{
    Ok(Value::Object(texts_by_name(alloc, elements.as_slice())?))
}

/// The context as a map of its keys. Of equal keys the first stays.
#[tactic(auto, unfolding(crate::specs::Printing::context_data))]
fn context_json(alloc: Global, context: &Seq<Pair>) -> Result<Value, NoMemory>
    ensures { IfOk result (λ v. view v ≡ context_data context.now) }
{
    Ok(Value::Object(texts_by_name(alloc, context.as_slice())?))
}

impl ToJson<Key> for Resource {
    ghost use Rattle.rg_explain_wire.specs.Printing.{asked_resource_data};

    ghost printing = { asked_resource_data };

    #[tactic(auto, unfolding(crate::specs::Printing::asked_resource_data))]
    fn json(&self, alloc: Global) -> Result<Value, NoMemory> {
        let mut members = Map::new(alloc);
        let elements = elements_json(alloc, &self.elements)?;
        put_value(alloc, &mut members, Key::Elements.name(), elements)?;
        put(alloc, &mut members, Key::OwnerUser, &self.owner)?;
        Ok(Value::Object(members))
    }
}

impl ToJson<Key> for AccessRequest {
    ghost use Rattle.rg_explain_wire.specs.Printing.{request_data};

    ghost printing = { request_data };

    #[tactic(auto, unfolding(crate::specs::Printing::request_data))]
    fn json(&self, alloc: Global) -> Result<Value, NoMemory> {
        let mut members = Map::new(alloc);
        put(alloc, &mut members, Key::AccessTime, &self.moment.0)?;
        put(alloc, &mut members, Key::AccessType, &self.access)?;
        put(alloc, &mut members, Key::ClientAddress, &self.address)?;
        let context = context_json(alloc, &self.context)?;
        put_value(alloc, &mut members, Key::Context.name(), context)?;
        put(alloc, &mut members, Key::Resource, &self.resource)?;
        put(alloc, &mut members, Key::User, &self.user)?;
        put(alloc, &mut members, Key::UserGroups, &self.groups)?;
        Ok(Value::Object(members))
    }
}
