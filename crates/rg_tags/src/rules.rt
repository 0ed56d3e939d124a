// The rule of tags.
ghost use Rattle.std.specs.Prelude.{◌≡◌};
ghost use Rattle.std.specs.List.{list_all};
ghost use Rattle.rg_base.specs.Texts.{is_name};
ghost use Rattle.rg_policy.specs.declared.tags.Tag.{Tag};
ghost use Rattle.rg_tags.specs.Rules.{tags_fit};

use rg_base::is_name;
use rg_policy::Tag;

fn kinds_fit(tags: &[Tag]) -> bool
    ensures { result ≡ list_all (λ (t : Tag). is_name t.kind) tags.now }
{
    tags.iter().all(|tag| is_name(tag.kind.as_str()))
}

/// Whether there are at most 64 tags, and each kind has 1 to 256 characters (rule G3).
pub fn tags_fit(tags: &[Tag]) -> bool
    ensures { result ≡ tags_fit tags.now }
{
    tags.len() <= 64 && kinds_fit(tags)
}
