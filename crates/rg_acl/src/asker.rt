// Who asks for the subject of a row.
ghost use Rattle.std.specs.Prelude.{◌≡◌, ◌∷◌, [], IfOk};
ghost use Rattle.std.specs.Str.{chars};
ghost use Rattle.rg_base.specs.Listed.{listed};
ghost use Rattle.rg_acl.specs.Rows.{group_asker, other_asker, user_asker};
ghost use Rattle.rg_acl.specs.declared.row.SubjectKind.TheVariants.{Role};

use crate::row::SubjectKind;
use rg_base::{NoMemory, Seq, Text, TryCopy};
use std::alloc::Global;

/// A subject by kind and name, and the user with groups who asks for it.
#[derive(Drop)]
pub(crate) struct Asker {
    pub kind: SubjectKind,
    pub name: Text,
    pub user: Text,
    pub groups: Seq<Text>,
}

impl Asker {
    /// A user, without groups.
    pub(crate) fn of_user(alloc: Global, name: &Text) -> Result<Asker, NoMemory>
        ensures { IfOk result (λ asker. asker ≡ user_asker name.now) }
    {
        Ok(Asker {
            kind: SubjectKind::User,
            name: name.try_copy(alloc)?,
            user: name.try_copy(alloc)?,
            groups: Seq::new(alloc),
        })
    }

    /// For a group, the stranger with that one group.
    pub(crate) fn of_group(alloc: Global, stranger: &Text, name: &Text) -> Result<Asker, NoMemory>
        ensures { IfOk result (λ asker. asker ≡ group_asker stranger.now name.now) }
    {
        let mut groups = Seq::new(alloc);
        groups.add(name.try_copy(alloc)?)?;
        Ok(Asker {
            kind: SubjectKind::Group,
            name: name.try_copy(alloc)?,
            user: stranger.try_copy(alloc)?,
            groups,
        })
    }

    /// For a role, its member, who has no groups.
    pub(crate) fn of_role(alloc: Global, name: &Text, member: Text) -> Result<Asker, NoMemory>
        ensures { IfOk result (λ asker. asker
            ≡ record { kind = Role; name = name.now; user = member; groups = listed [] }) }
    {
        let name = match name.try_copy(alloc) {
            Ok(name) => name,
            Err(NoMemory) => {
                drop(member);
                return Err(NoMemory);
            }
        };
        Ok(Asker {
            kind: SubjectKind::Role,
            name,
            user: member,
            groups: Seq::new(alloc),
        })
    }

    /// For all others, the stranger.
    pub(crate) fn of_others(alloc: Global, stranger: &Text) -> Result<Asker, NoMemory>
        ensures { IfOk result (λ asker. asker ≡ other_asker stranger.now) }
    {
        Ok(Asker {
            kind: SubjectKind::Other,
            name: Text::empty(alloc),
            user: stranger.try_copy(alloc)?,
            groups: Seq::new(alloc),
        })
    }
}
