// Lists that are maps in JSON.
ghost use Rattle.std.specs.Prelude.{◌≡◌, IfOk};
ghost use Rattle.std.specs.Str.{encode_utf8_all};
ghost use Rattle.serde_json.specs.Data.{put};
ghost use Rattle.serde_json.specs.View.{members_view, view};
ghost use Rattle.rg_cmd_wire.specs.PrintedRows.{map_data, named_members};

use crate::reply_key::ReplyKey;
use rg_base::{Named, NoMemory, Seq};
use rg_json::{ToJson, put_value};
use serde_json::{Map, Value};
use std::alloc::Global;

/// Puts the item under its name.
#[tactic(auto, using(crate::proofs::Spelled::spellings))]
fn put_named<X: Named + ToJson<ReplyKey>>(
    alloc: Global,
    members: &mut Map<String, Value>,
    item: &X,
) -> Result<(), NoMemory>
    ensures { IfOk result (λ u. members_view members.new.entries
        ≡ put (encode_utf8_all (X.named item.now)) (X.printing item.now) (members_view members.old.entries)) }
{
    let value = item.json(alloc)?;
    put_value(alloc, members, item.name(), value)
}

/// A member for each item, filled from the last one, so that of equal names the first stays.
fn named_members<X: Named + ToJson<ReplyKey>>(
    alloc: Global,
    items: &[X],
) -> Result<Map<String, Value>, NoMemory>
    ensures { IfOk result
        (λ m. members_view m.entries ≡ named_members X.named X.printing items.now) }
{
    let mut members = Map::new(alloc);
    let mut left = items.len();
    while left > 0 {
        left -= 1;
        put_named(alloc, &mut members, &items[left])?;
    }
    Ok(members)
}

/// The items as a map by their names.
#[tactic(auto, unfolding(crate::specs::PrintedRows::map_data))]
pub(crate) fn map_json<X: Named + ToJson<ReplyKey>>(
    alloc: Global,
    items: &Seq<X>,
) -> Result<Value, NoMemory>
    ensures { IfOk result (λ v. view v ≡ map_data X.named X.printing items.now) }
{
    Ok(Value::Object(named_members(alloc, items.as_slice())?))
}
