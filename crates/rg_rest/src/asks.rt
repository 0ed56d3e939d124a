// What a route asks.
ghost use Rattle.std.specs.Prelude.{◌≡◌, true};
ghost use Rattle.std.specs.Str.{chars};
ghost use Rattle.rg_json.specs.Reading.{Answers, reading};
ghost use Rattle.rg_wire.specs.Records.{policy_of, request_of, role_of, service_def_of, tag_row_of, zone_of};
ghost use Rattle.rg_wire.specs.Shapes.{policy_shape, request_shape, role_shape, service_shape, service_def_shape, tag_row_shape, user_shape, zone_shape};
ghost use Rattle.rg_cmd_wire.specs.Rows.{service_of, user_of};
ghost use Rattle.rg_rest.specs.Asks.{asks, call_from, download, id_of, plain, policy_id, put_user, update_policy, update_service};
ghost use Rattle.rg_rest.specs.Query.{is_number};
ghost use Rattle.rg_rest.specs.Table.{row_of};

use crate::call::Call;
use crate::query::known_version;
use crate::route::{Route, Tail};
use rg_base::{Moment, PolicyId, Text};
use rg_cmd::{AdminCommand, Part};
use rg_cmd_wire::{read_service, read_user};
use rg_json::WireFault;
use rg_wire::{read_def, read_policy, read_request, read_role, read_tag_row, read_zone};
use std::alloc::Global;

// A command that is no download.
fn plain(command: AdminCommand) -> Call
    ensures { result ≡ plain command }
{
    Call::Admin(command, Part::Policies)
}

// The number that an id's digits are.
#[tactic(auto, using(crate::proofs::Numbers::numbers), unfolding(crate::specs::Asks::id_of))]
fn id_of(digits: &str) -> i64
    requires { is_number 18 digits.now ≡ true }
    ensures { result ≡ id_of digits.now }
{
    match digits.parse::<i64>() {
        Ok(id) => id,
        Err(_) => unreachable!(),
    }
}

fn put_def(alloc: Global, body: &[u8]) -> Result<Call, WireFault>
    ensures { Answers result (call_from (λ def. plain (AdminCommand.PutDef def))
        (reading service_def_shape service_def_of body.now)) }
{
    match read_def(alloc, body) {
        Ok(def) => Ok(plain(AdminCommand::PutDef { def })),
        Err(fault) => Err(fault),
    }
}

fn create_service(alloc: Global, body: &[u8]) -> Result<Call, WireFault>
    ensures { Answers result (call_from (λ service. plain (AdminCommand.CreateService service))
        (reading service_shape service_of body.now)) }
{
    match read_service(alloc, body) {
        Ok(service) => Ok(plain(AdminCommand::CreateService { service })),
        Err(fault) => Err(fault),
    }
}

fn create_policy(alloc: Global, body: &[u8]) -> Result<Call, WireFault>
    ensures { Answers result (call_from (λ policy. plain (AdminCommand.CreatePolicy policy))
        (reading policy_shape policy_of body.now)) }
{
    match read_policy(alloc, body) {
        Ok(policy) => Ok(plain(AdminCommand::CreatePolicy { policy })),
        Err(fault) => Err(fault),
    }
}

fn put_role(alloc: Global, body: &[u8]) -> Result<Call, WireFault>
    ensures { Answers result (call_from
        (λ role. plain (AdminCommand.PutRole role)) (reading role_shape role_of body.now)) }
{
    match read_role(alloc, body) {
        Ok(role) => Ok(plain(AdminCommand::PutRole { role })),
        Err(fault) => Err(fault),
    }
}

fn put_zone(alloc: Global, body: &[u8]) -> Result<Call, WireFault>
    ensures { Answers result (call_from
        (λ zone. plain (AdminCommand.PutZone zone)) (reading zone_shape zone_of body.now)) }
{
    match read_zone(alloc, body) {
        Ok(zone) => Ok(plain(AdminCommand::PutZone { zone })),
        Err(fault) => Err(fault),
    }
}

fn update_service(alloc: Global, end: &str, body: &[u8]) -> Result<Call, WireFault>
    ensures { Answers result
        (call_from (update_service end.now) (reading service_shape service_of body.now)) }
{
    let Ok(name) = Text::copy_of(alloc, end) else {
        return Err(WireFault::NoMemory);
    };
    match read_service(alloc, body) {
        Ok(mut service) => {
            service.name = name;
            Ok(plain(AdminCommand::UpdateService { service }))
        }
        Err(fault) => Err(fault),
    }
}

fn update_policy(alloc: Global, end: &str, body: &[u8]) -> Result<Call, WireFault>
    requires { is_number 18 end.now ≡ true }
    ensures { Answers result
        (call_from (update_policy (policy_id end.now)) (reading policy_shape policy_of body.now)) }
{
    match read_policy(alloc, body) {
        Ok(mut policy) => {
            policy.id = PolicyId(id_of(end));
            Ok(plain(AdminCommand::UpdatePolicy { policy }))
        }
        Err(fault) => Err(fault),
    }
}

fn put_tags(alloc: Global, end: &str, body: &[u8]) -> Result<Call, WireFault>
    requires { is_number 18 end.now ≡ true }
    ensures { Answers result (call_from (λ row. plain (AdminCommand.PutTags (id_of end.now) row))
        (reading tag_row_shape tag_row_of body.now)) }
{
    match read_tag_row(alloc, body) {
        Ok(row) => {
            let id = id_of(end);
            Ok(plain(AdminCommand::PutTags { id, row }))
        }
        Err(fault) => Err(fault),
    }
}

fn put_user(alloc: Global, end: &str, body: &[u8]) -> Result<Call, WireFault>
    ensures { Answers result (call_from (put_user end.now) (reading user_shape user_of body.now)) }
{
    let Ok(name) = Text::copy_of(alloc, end) else {
        return Err(WireFault::NoMemory);
    };
    match read_user(alloc, body) {
        Ok(mut user) => {
            user.name = name;
            Ok(plain(AdminCommand::PutUser { user }))
        }
        Err(fault) => Err(fault),
    }
}

fn delete_service(alloc: Global, end: &str) -> Result<Call, WireFault>
    ensures { Answers result (Ok (plain (AdminCommand.DeleteService (chars end.now)))) }
{
    let Ok(name) = Text::copy_of(alloc, end) else {
        return Err(WireFault::NoMemory);
    };
    Ok(plain(AdminCommand::DeleteService { name }))
}

fn list_policies(alloc: Global, end: &str) -> Result<Call, WireFault>
    ensures { Answers result (Ok (plain (AdminCommand.ListPolicies (chars end.now)))) }
{
    let Ok(service) = Text::copy_of(alloc, end) else {
        return Err(WireFault::NoMemory);
    };
    Ok(plain(AdminCommand::ListPolicies { service }))
}

fn delete_role(alloc: Global, end: &str) -> Result<Call, WireFault>
    ensures { Answers result (Ok (plain (AdminCommand.DeleteRole (chars end.now)))) }
{
    let Ok(name) = Text::copy_of(alloc, end) else {
        return Err(WireFault::NoMemory);
    };
    Ok(plain(AdminCommand::DeleteRole { name }))
}

fn delete_zone(alloc: Global, end: &str) -> Result<Call, WireFault>
    ensures { Answers result (Ok (plain (AdminCommand.DeleteZone (chars end.now)))) }
{
    let Ok(name) = Text::copy_of(alloc, end) else {
        return Err(WireFault::NoMemory);
    };
    Ok(plain(AdminCommand::DeleteZone { name }))
}

fn delete_user(alloc: Global, end: &str) -> Result<Call, WireFault>
    ensures { Answers result (Ok (plain (AdminCommand.DeleteUser (chars end.now)))) }
{
    let Ok(name) = Text::copy_of(alloc, end) else {
        return Err(WireFault::NoMemory);
    };
    Ok(plain(AdminCommand::DeleteUser { name }))
}

fn decide(alloc: Global, body: &[u8], now: Moment) -> Result<Call, WireFault>
    ensures { Answers result
        (call_from Call.Decide (reading request_shape (request_of now) body.now)) }
{
    match read_request(alloc, body, now) {
        Ok(request) => Ok(Call::Decide(request)),
        Err(fault) => Err(fault),
    }
}

// A download of the part that the route answers; of the other parts all is asked, and nothing of it is answered.
#[tactic(auto, unfolding(crate::specs::Asks::download))]
fn download(alloc: Global, end: &str, query: &str, part: Part) -> Result<Call, WireFault>
    ensures { Answers result (Ok (download part end.now query.now)) }
{
    let Ok(service) = Text::copy_of(alloc, end) else {
        return Err(WireFault::NoMemory);
    };
    let known = known_version(query);
    let command = match part {
        Part::Policies => AdminCommand::Download {
            service,
            policies_from: known,
            tags_from: None,
            roles_from: None,
        },
        Part::Tags => AdminCommand::Download {
            service,
            policies_from: None,
            tags_from: known,
            roles_from: None,
        },
        Part::Roles => AdminCommand::Download {
            service,
            policies_from: None,
            tags_from: None,
            roles_from: known,
        },
    };
    Ok(Call::Admin(command, part))
}

/// What a route asks, with the end of its path, the query and the body. A request without a time is made at `now`.
#[tactic(auto, unfolding(crate::specs::Asks::asks, crate::specs::Table::row_of))]
pub(crate) fn asks(
    alloc: Global,
    route: Route,
    end: &str,
    query: &str,
    body: &[u8],
    now: Moment,
) -> Result<Call, WireFault>
    requires { (row_of route).tail ≡ Tail.Id → is_number 18 end.now ≡ true }
    ensures { Answers result (asks route end.now query.now body.now now) }
{
    match route {
        Route::PutDef => put_def(alloc, body),
        Route::CreateService => create_service(alloc, body),
        Route::UpdateService => update_service(alloc, end, body),
        Route::DeleteService => delete_service(alloc, end),
        Route::CreatePolicy => create_policy(alloc, body),
        Route::GetPolicy => Ok(plain(AdminCommand::GetPolicy {
            id: PolicyId(id_of(end)),
        })),
        Route::UpdatePolicy => update_policy(alloc, end, body),
        Route::DeletePolicy => Ok(plain(AdminCommand::DeletePolicy {
            id: PolicyId(id_of(end)),
        })),
        Route::ListPolicies => list_policies(alloc, end),
        Route::PutRole => put_role(alloc, body),
        Route::DeleteRole => delete_role(alloc, end),
        Route::PutZone => put_zone(alloc, body),
        Route::DeleteZone => delete_zone(alloc, end),
        Route::PutTags => put_tags(alloc, end, body),
        Route::DeleteTags => Ok(plain(AdminCommand::DeleteTags { id: id_of(end) })),
        Route::PutUser => put_user(alloc, end, body),
        Route::DeleteUser => delete_user(alloc, end),
        Route::DownloadPolicies => download(alloc, end, query, Part::Policies),
        Route::DownloadTags => download(alloc, end, query, Part::Tags),
        Route::DownloadRoles => download(alloc, end, query, Part::Roles),
        Route::Decide => decide(alloc, body, now),
    }
}
