// The router.
ghost use Rattle.std.specs.Prelude.{◌≡◌, ◌==◌, IfOk};
ghost use Rattle.std.specs.Str.{chars};
ghost use Rattle.rg_rest.specs.Responses.{HasStatus};
ghost use Rattle.rg_rest.specs.Routes.{call_of, has_user, is_actor};

use crate::asks::asks;
use crate::bodies::{no_method, no_path, no_record, no_user};
use crate::call::Call;
use crate::path::{Missing, Paths};
use crate::split::split_around;
use rg_base::{Moment, NoMemory, Seq, is_name};
use rg_http::Message;
use rg_json::WireFault;
use std::alloc::Global;

// Whether it names an actor.
#[tactic(auto, using(crate::proofs::Calls::actors))]
fn is_actor(user: &[u8]) -> bool
    ensures { result ≡ is_actor user.now }
{
    let Ok(name) = str::from_utf8(user) else {
        return false;
    };
    is_name(name)
}

// Whether there is an actor.
fn has_user(user: &Option<Seq<u8>>) -> bool
    ensures { result ≡ has_user user.now }
{
    match user {
        None => false,
        Some(user) => is_actor(user.as_slice()),
    }
}

/// The routes.
#[derive(Drop)]
pub struct Router {
    paths: Paths,
}

impl Router {
    /// A router of all routes.
    pub fn new(alloc: Global) -> Result<Router, NoMemory> {
        let paths = Paths::new(alloc)?;
        Ok(Router { paths })
    }

    /// What the message asks of the service with the plugin's name; the answer, where it asks nothing. A request without a time
    /// is made at `now`.
    ///
    /// A path that no route has is answered by 404, and so are an id that isn't 1 to 18 digits and the decision of another
    /// service; then a method that no route with the path has by 405; then a message whose first `x-user` isn't 1 to 256
    /// characters of UTF-8 by 401; then a body that doesn't read by 400.
    #[tactic(auto, using(crate::proofs::Calls::calls, crate::proofs::Statuses::statuses))]
    pub fn read_call(
        &self,
        alloc: Global,
        message: &Message,
        plugin: &str,
        now: Moment,
    ) -> Result<Call, NoMemory>
        ensures call { IfOk result (λ c. c ≡ call_of (chars plugin.now) message.now now) }
        ensures status { IfOk result HasStatus }
    {
        let (path, query) = split_around(message.target.as_str(), '?');
        let (route, end) = match self.paths.find_route(plugin, path, message.method.as_str()) {
            Ok(found) => found,
            Err(Missing::Path) => return Ok(Call::Answer(no_path(alloc, message.close)?)),
            Err(Missing::Method) => return Ok(Call::Answer(no_method(alloc, message.close)?)),
        };
        if !has_user(&message.user) {
            return Ok(Call::Answer(no_user(alloc, message.close)?));
        }
        match asks(alloc, route, end, query, message.body.as_slice(), now) {
            Ok(call) => Ok(call),
            Err(WireFault::NoMemory) => Err(NoMemory),
            Err(WireFault::Bad { path, kind }) => {
                Ok(Call::Answer(no_record(alloc, &path, kind, message.close)?))
            }
        }
    }
}
