// An administration and what it is asked, made of texts.
ghost use Rattle.std.specs.Prelude.{IfSome};
ghost use Rattle.rg_admin_laws.specs.Starts.{IsStart};

use rg_admin::Admin;
use rg_base::{Moment, Text};
use rg_cmd::{AdminReply, Ask};
use rg_cmd_wire::{read_command, read_config};
use rg_policy::AccessRequest;
use rg_wire::read_request;
use std::alloc::Global;

/// Creates policy 1, by which ann may select on the database `sales`.
pub(crate) const CREATE: &str =
    r#"{"command":"createPolicy","policy":{"service":"hive1","name":"p1","resources":{"database":{"values":["sales"]}},"policyItems":[{"users":["ann"],"accesses":[{"type":"select"}]}]}}"#;

/// The administration that the configuration starts. None where it starts none, or memory is refused.
pub(crate) fn started(alloc: Global, config: &str) -> Option<Admin>
    ensures { IfSome result IsStart }
{
    match read_config(alloc, config.as_bytes()) {
        Ok(config) => match Admin::start(alloc, config) {
            Ok(admin) => Some(admin),
            Err(_) => None,
        },
        Err(_) => None,
    }
}

/// The name of the administrator. None where memory is refused.
pub(crate) fn root(alloc: Global) -> Option<Text> {
    match Text::copy_of(alloc, "root") {
        Ok(actor) => Some(actor),
        Err(_) => None,
    }
}

/// What the administrator asks. None where the text is no command, or memory is refused.
pub(crate) fn ask_of(alloc: Global, command: &str) -> Option<Ask> {
    let actor = root(alloc)?;
    match read_command(alloc, command.as_bytes()) {
        Ok(command) => Some(Ask { actor, command }),
        Err(_) => None,
    }
}

fn id_in(reply: &AdminReply) -> Option<u64> {
    match reply {
        AdminReply::Kept { id, version: _ } => u64::try_from(id.0).ok(),
        _ => None,
    }
}

/// The id of the policy that the reply keeps, if it keeps one. The reply is let go.
pub(crate) fn kept_id(reply: AdminReply) -> Option<u64> {
    let id = id_in(&reply);
    drop(reply);
    id
}

fn request_in(alloc: Global, json: &str) -> Option<AccessRequest> {
    match read_request(alloc, json.as_bytes(), Moment(0)) {
        Ok(request) => Some(request),
        Err(_) => None,
    }
}

/// The user wants to select on the database `sales`. None where memory is refused.
pub(crate) fn request_of(alloc: Global, user: &str) -> Option<AccessRequest> {
    let json = format!(in alloc;
        "{{\"user\":\"{user}\",\"resource\":{{\"elements\":{{\"database\":\"sales\"}}}},\"accessType\":\"select\",\"accessTime\":0}}"
    );
    match json {
        Ok(json) => request_in(alloc, json.as_str()),
        Err(_) => None,
    }
}
