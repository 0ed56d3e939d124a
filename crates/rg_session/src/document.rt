// The document of a plugin's download.
ghost use Rattle.std.specs.Prelude.{◌≡◌, ◌≤◌, ◌^◌, length, IfOk};
ghost use mathlib.Core.List.{IsPrefix};
ghost use Rattle.rg_turn.specs.History.{IsLegal};
ghost use Rattle.rg_turn.specs.Values.{IsCalled};
ghost use Rattle.rg_cmd.specs.declared.ask.AdminReply.TheVariants.{Downloaded};
ghost use Rattle.rg_cmd.specs.declared.download.Download.{Download};
ghost use Rattle.rg_admin_laws.specs.Machine.{download_ask, is_unchanged, versions};
ghost use Rattle.rg_admin_laws.specs.Starts.{IsStart};
ghost use Rattle.rg_admin_laws.specs.Steps.{step};
ghost use Rattle.rg_session.specs.Documents.{Came};
ghost use Rattle.rg_session.specs.Refreshing.{is_partial};
ghost use Rattle.rg_session.specs.Right.{AreRightFor};

use crate::laws::{documents_come, documents_lead, right_lists_stay_right};
use rg_admin::{Admin, Recorder};
use rg_base::{NoMemory, Text, TryCopy};
use rg_cmd::{AdminCommand, AdminReply, Ask, Download, PolicyPart, RolePart, TagPart};
use rg_publish::{Engine, Publisher};
use rg_turn::{Seat, Turn};
use std::alloc::Global;
use std::sync::Wait;

/// Whether each part of the document is unchanged.
pub fn is_unchanged(document: &Download) -> bool
    ensures { result ≡ is_unchanged document.now }
{
    matches!(document.policies, PolicyPart::Unchanged)
        && matches!(document.tags, TagPart::Unchanged)
        && matches!(document.roles, RolePart::Unchanged)
}

/// Whether neither the policies nor the tag rows are whole.
pub(crate) fn is_partial(document: &Download) -> bool
    ensures { result ≡ is_partial document.now }
{
    !matches!(document.policies, PolicyPart::Whole(_))
        && !matches!(document.tags, TagPart::Whole(_))
}

/// What the plugin of this engine asks.
fn download_ask(alloc: Global, engine: &Engine, service: &Text) -> Result<Ask, NoMemory>
    ensures { IfOk result (λ ask. ask ≡ download_ask service.now (versions engine.now)) }
{
    Ok(Ask {
        actor: Text::empty(alloc),
        command: AdminCommand::Download {
            service: service.try_copy(alloc)?,
            policies_from: Some(engine.policy_version()),
            tags_from: Some(engine.tag_version()),
            roles_from: Some(engine.role_version()),
        },
    })
}

/// One call of the seat: the plugin's download by the empty actor.
fn download<P: Recorder, R: Wait>(
    rt: &R,
    alloc: Global,
    turn: &Turn<Admin<P>>,
    seat: &mut Seat<Admin<P>>,
    engine: &Engine,
    service: &Text,
) -> Result<AdminReply, NoMemory>
    requires { seat.old.turn ≡ turn.now.turn }
    ensures same { seat.new.turn ≡ seat.old.turn }
    ensures begins { IsPrefix seat.old.history seat.new.history }
    ensures legal { IfOk result (λ reply. IsLegal step turn.now.start seat.new.history) }
    ensures bounded { IfOk result (λ reply. length seat.new.history ≤ 2 ^ 62) }
    ensures called { IfOk result (λ reply.
        IsCalled seat.old (download_ask service.now (versions engine.now)) reply seat.new) }
{
    match download_ask(alloc, engine, service) {
        Ok(ask) => match turn.call(rt, alloc, seat, ask) {
            Ok(reply) => Ok(reply),
            Err(NoMemory) => Err(NoMemory),
        },
        Err(NoMemory) => Err(NoMemory),
    }
}

/// The document of a reply that has one.
fn document_in(reply: AdminReply) -> Download
    requires { (d : Download) × (reply ≡ Downloaded d) }
    ensures { reply ≡ Downloaded result }
{
    match reply {
        AdminReply::Downloaded(document) => return document,
        _ => unreachable!(),
    }
}

/// The document of the plugin's download from the versions of the newest publication.
pub(crate) fn document<P: Recorder, Q: Wait + Drop, R: Wait>(
    rt: &R,
    alloc: Global,
    turn: &Turn<Admin<P>>,
    seat: &mut Seat<Admin<P>>,
    publisher: &Publisher<Q>,
    service: &Text,
) -> Result<Download, NoMemory>
    requires turn { seat.old.turn ≡ turn.now.turn }
    requires start { IsStart turn.now.start }
    requires service { service.now ≡ turn.now.start.state.plugin }
    requires right { AreRightFor turn.now.start seat.old.history publisher.now.list }
    ensures same { seat.new.turn ≡ seat.old.turn }
    ensures begins { IsPrefix seat.old.history seat.new.history }
    ensures right { AreRightFor turn.now.start seat.new.history publisher.now.list }
    ensures came { IfOk result
        (λ d. Came turn.now.start seat.old service.now publisher.now.list d seat.new) }
{
    right_lists_stay_right();
    documents_come();
    documents_lead();
    match download(rt, alloc, turn, seat, publisher.newest(), service) {
        Ok(reply) => Ok(document_in(reply)),
        Err(NoMemory) => Err(NoMemory),
    }
}
