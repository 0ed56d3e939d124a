// The names of the fields of rows, replies and downloads in JSON.
use rg_json::Name;
use rg_wire::Key;

/// A field of what is printed here.
#[derive(Clone, Copy, Debug, PartialEq, Eq)]
pub enum ReplyKey {
    /// One that the records of rg_wire have too.
    Wire(Key),
    // Of replies.
    Done,
    Refused,
    Seq,
    // Of the parts of a download.
    Delta,
    Whole,
    From,
    To,
    Changes,
    ChangeType,
    Tag,
    Rows,
    TagDef,
}

impl Name for ReplyKey {
    ghost use Rattle.rg_cmd_wire.specs.PrintedNames.{name_of};

    ghost name_of = { name_of };

    #[tactic(auto, unfolding(crate::specs::PrintedNames::name_of))]
    fn name(self) -> &'static str {
        match self {
            ReplyKey::Wire(key) => key.name(),
            ReplyKey::Done => "done",
            ReplyKey::Refused => "refused",
            ReplyKey::Seq => "seq",
            ReplyKey::Delta => "delta",
            ReplyKey::Whole => "whole",
            ReplyKey::From => "from",
            ReplyKey::To => "to",
            ReplyKey::Changes => "changes",
            ReplyKey::ChangeType => "changeType",
            ReplyKey::Tag => "tag",
            ReplyKey::Rows => "rows",
            ReplyKey::TagDef => "tagDef",
        }
    }
}
