// The attributes of a tag.
ghost use Rattle.std.specs.Prelude.{◌≡◌, option_map};
ghost use Rattle.std.specs.Str.{chars};
ghost use Rattle.rg_base.specs.Pairs.{value_of};

use rg_base::value_of;
use rg_policy::Tag;

/// The value of the tag's first attribute of this name, None where it has none.
pub fn attribute<'a>(tag: &'a Tag, name: &str) -> Option<&'a str>
    ensures { option_map (λ t. chars t.now) result
        ≡ value_of (chars name.now) tag.now.attributes.items }
{
    match value_of(tag.attributes.as_slice(), name) {
        Some(value) => Some(value.as_str()),
        None => None,
    }
}
