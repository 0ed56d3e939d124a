// An administration that is asked over a link.
ghost use Rattle.std.specs.Prelude.{◌≡◌, true, [], IfOk, IfErr, option_map};
ghost use Rattle.std.specs.Str.{chars};
ghost use Rattle.rg_remote.specs.Remotes.{IsUnanswered, PoliciesTold, PoliciesUntold, RolesTold, RolesUntold, TagsTold, TagsUntold, WasGiven, WasReplied, no_body, target};

use crate::fault::AskFault;
use crate::target::target;
use rg_base::{NoMemory, Seq, Text, Version};
use rg_client::{Client, ClientFault, Question};
use rg_cmd::{PolicyPart, RolePart, TagPart};
use rg_download_wire::{read_policy_part, read_role_part, read_tag_part};
use rg_http::Response;
use rg_ports::Link;
use std::alloc::Global;
use std::marker::Model;

/// An administration that is asked over a link for what the plugin of a service downloads. Contracts see the link's bytes where it
/// tells them and how often it failed, what was read of a reply to come, and whom it asks for which service as whom.
#[derive(Drop)]
pub struct Remote<T: Link + Drop> {
    link: T,
    client: Client,
    host: Text,
    user: Text,
    service: Text,
}

impl<T: Link + Drop> Model for Remote<T> {
    ghost use Rattle.rg_remote.specs.Remotes.{Far};

    ghost Value = { Far };

    ghost view = { λ r. record {
      left = T.left r.link;
      held = T.held r.link;
      faults = T.faults r.link;
      bytes = r.client.bytes;
      live = r.client.live;
      host = r.host;
      user = r.user;
      service = r.service;
    } };
}

impl<T: Link + Drop> Remote<T> {
    /// At the beginning of a link.
    pub fn new(
        alloc: Global,
        link: T,
        host: Text,
        user: Text,
        service: Text,
    ) -> Result<Remote<T>, NoMemory>
        ensures { IfOk result (λ r. r ≡ record {
          left = T.left link;
          held = T.held link;
          faults = T.faults link;
          bytes = [];
          live = true;
          host = host;
          user = user;
          service = service;
        }) }
    {
        match Client::new(alloc) {
            Ok(client) => Ok(Remote {
                link,
                client,
                host,
                user,
                service,
            }),
            Err(NoMemory) => Err(NoMemory),
        }
    }

    // Asks for the part at this path, from this version.
    fn ask(
        &mut self,
        alloc: Global,
        path: &str,
        from: Option<Version>,
    ) -> Result<Response, AskFault>
        ensures replied { IfOk result
            (λ r. WasReplied (target (chars path.now) self.old.service from) self.old self.new r) }
        ensures unanswered { IfErr result
            (λ f. IsUnanswered (chars path.now) from no_body f self.old self.new) }
    {
        if !self.client.is_live() {
            return Err(AskFault::Client(ClientFault::Failed));
        }
        let target = match target(alloc, path, self.service.as_str(), from) {
            Ok(target) => target,
            Err(NoMemory) => return Err(AskFault::NoMemory),
        };
        let question = Question {
            target: target.as_str(),
            host: self.host.as_str(),
            user: self.user.as_str(),
        };
        match self.client.ask(alloc, &mut self.link, &question) {
            Ok(reply) => Ok(reply),
            Err(fault) => Err(AskFault::Client(fault)),
        }
    }

    // The bytes of the part at this path; None where it is the same as from this version.
    fn fetch(
        &mut self,
        alloc: Global,
        path: &str,
        from: Option<Version>,
    ) -> Result<Option<Seq<u8>>, AskFault>
        ensures given { IfOk result (λ body. WasGiven
            (chars path.now) self.old from (option_map (λ b. b.items) body) self.new) }
        ensures unanswered { IfErr result
            (λ f. IsUnanswered (chars path.now) from no_body f self.old self.new) }
    {
        let reply = match self.ask(alloc, path, from) {
            Ok(reply) => reply,
            Err(fault) => return Err(fault),
        };
        match reply.status {
            304 => Ok(None),
            200 => Ok(Some(reply.body)),
            status => Err(AskFault::Status(status)),
        }
    }

    /// Asks for the changes of the policies from the version on, without one for all of them.
    #[tactic(auto, unfolding(crate::specs::Remotes::policies_path))]
    pub fn policies(&mut self, alloc: Global, from: Option<Version>) -> Result<PolicyPart, AskFault>
        ensures told { IfOk result (λ part. PoliciesTold self.old from part self.new) }
        ensures untold { IfErr result (λ f. PoliciesUntold self.old from f self.new) }
    {
        match self.fetch(alloc, "/service/plugins/policies/download/", from) {
            Ok(None) => Ok(PolicyPart::Unchanged),
            Ok(Some(body)) => match read_policy_part(alloc, body.as_slice()) {
                Ok(part) => Ok(part),
                Err(fault) => Err(AskFault::Body(fault)),
            },
            Err(fault) => Err(fault),
        }
    }

    /// Asks for the changes of the tag rows from the version on, without one for all of them.
    #[tactic(auto, unfolding(crate::specs::Remotes::tags_path))]
    pub fn tags(&mut self, alloc: Global, from: Option<Version>) -> Result<TagPart, AskFault>
        ensures told { IfOk result (λ part. TagsTold self.old from part self.new) }
        ensures untold { IfErr result (λ f. TagsUntold self.old from f self.new) }
    {
        match self.fetch(alloc, "/service/tags/download/", from) {
            Ok(None) => Ok(TagPart::Unchanged),
            Ok(Some(body)) => match read_tag_part(alloc, body.as_slice()) {
                Ok(part) => Ok(part),
                Err(fault) => Err(AskFault::Body(fault)),
            },
            Err(fault) => Err(fault),
        }
    }

    /// Asks for the roles, unless they have this version.
    #[tactic(auto, unfolding(crate::specs::Remotes::roles_path))]
    pub fn roles(&mut self, alloc: Global, from: Option<Version>) -> Result<RolePart, AskFault>
        ensures told { IfOk result (λ part. RolesTold self.old from part self.new) }
        ensures untold { IfErr result (λ f. RolesUntold self.old from f self.new) }
    {
        match self.fetch(alloc, "/service/roles/download/", from) {
            Ok(None) => Ok(RolePart::Unchanged),
            Ok(Some(body)) => match read_role_part(alloc, body.as_slice()) {
                Ok(part) => Ok(part),
                Err(fault) => Err(AskFault::Body(fault)),
            },
            Err(fault) => Err(fault),
        }
    }
}
