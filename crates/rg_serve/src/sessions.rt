// What a worker does with a link.
ghost use Rattle.std.specs.Prelude.{◌≡◌, false};
ghost use Rattle.rg_admin_laws.specs.Starts.{IsStart};
ghost use Rattle.rg_serve.specs.Trails.{IsSession};

use crate::naming::Naming;
use rg_admin::{Admin, Recorder};
use rg_base::Text;
use rg_hook::RequestHooks;
use rg_http::{Response, bytes_of};
use rg_link::{LinkFault, send, serve_link};
use rg_ports::{Clock, Gate, Link};
use rg_publish::Pass;
use rg_session::Bell;
use rg_threads::{Halt, HaltCause, SharedClock};
use rg_turn::{Seat, Turn};
use std::alloc::Global;
use std::marker::PhantomData;
use std::sync::{Arc, Mutex, Wait};

/// What all threads of a service share.
#[derive(Drop)]
pub(crate) struct Common<J: Naming, P: Recorder> {
    pub alloc: Global,
    pub turn: Turn<Admin<P>>,
    pub bell: Bell,
    /// Why a link breaks off, where changes aren't taken any more.
    pub halt: Arc<Halt>,
    /// The plugin's service.
    pub plugin: Text,
    pub of: PhantomData<J>,
    pub ghost names: { (turn.turn ≡ J.turn) × (plugin ≡ J.plugin) },
    pub ghost start: { IsStart turn.start },
}

/// What the workers share.
#[derive(Drop)]
pub(crate) struct Sessions<'a, 'k, 'c, 'g, J: Naming, P: Recorder, C, G> {
    pub common: &'a Common<J, P>,
    pub clock: &'k Mutex<&'c mut C>,
    pub gate: &'g G,
}

impl<'a, 'k, 'c, 'g, J: Naming, P: Recorder, C: Clock, G: Gate> Sessions<
    'a,
    'k,
    'c,
    'g,
    J,
    P,
    C,
    G,
> {
    /// The session of a link. Says whether it met want of memory, which is also what a change meets that isn't taken any more. A
    /// fault of the link ends that link alone.
    pub fn hold_session<T: Link + Drop, H: RequestHooks, R: Wait + Sync>(
        &self,
        rt: &R,
        seat: &mut Seat<Admin<P>>,
        pass: &mut Pass,
        hooks: &mut H,
        number: u32,
        link: T,
    ) -> bool
        requires { seat.old.turn ≡ J.turn }
        ensures same { (seat.new.turn ≡ seat.old.turn) × (pass.new.book ≡ pass.old.book) }
        ensures session { result ≡ false → IsSession J.plugin seat.old pass.old seat.new pass.new }
    {
        let common = self.common;
        let mut link = link;
        let mut clock = SharedClock::new(rt, self.clock);
        match serve_link(
            rt,
            common.alloc,
            &mut link,
            &common.turn,
            seat,
            pass,
            &mut clock,
            hooks,
            self.gate,
            &common.bell,
            common.plugin.as_str(),
            number,
        ) {
            Ok(_) => return false,
            Err(LinkFault::Failed) => return false,
            Err(LinkFault::NoMemory) => {
                tell_halt(common.alloc, &common.halt, &mut link);
                return true;
            }
        }
    }
}

/// What is said of it.
fn told(cause: HaltCause) -> &'static [u8] {
    match cause {
        HaltCause::Failed => b"{\"error\":\"keeper\"}",
        HaltCause::Full => b"{\"error\":\"full\"}",
    }
}

/// Says why a link broke off, where no more changes are taken: 503, and the link is let go. Where memory is refused, or the link
/// fails, it isn't said.
fn tell_halt<T: Link>(alloc: Global, halt: &Halt, link: &mut T) {
    let Some(cause) = halt.cause() else {
        return;
    };
    let Ok(body) = bytes_of(alloc, told(cause)) else {
        return;
    };
    let response = Response {
        status: 503,
        body,
        close: true,
    };
    let _told = send(alloc, link, &response);
}
