// The pages of a service: how it stands, and what it has done.
ghost use Rattle.std.specs.Prelude.{◌≡◌, IfOk, string_bytes};
ghost use Rattle.rg_metrics.specs.Page.{page_text};

use crate::family::print_families;
use crate::metrics::Metrics;
use crate::standing::{Standing, print_standing};
use crate::watched::{Inside, Watched};
use rg_base::{Failed, Moment, NoMemory};
use rg_http::{Framer, Message, Next, write_whole};
use rg_ports::{Clock, Link, Listener};
use std::alloc::Global;
use std::time::Duration;
use std::{rt, thread};

const JSON: &str = "application/json";

/// The text form of Prometheus.
const EXPOSITION: &str = "text/plain; version=0.0.4";

/// A body of this type, behind which the connection is closed.
fn page(alloc: Global, status: &str, of: &str, body: &str) -> Result<String, NoMemory>
    ensures { IfOk result (λ text. string_bytes text ≡ page_text status.now of.now body.now) }
{
    let mut text = String::new(alloc);
    let length = body.len();
    let written = write!(
        text,
        "HTTP/1.1 {status}\r\nConnection: close\r\nContent-Length: {length}\r\nContent-Type: {of}\r\n\r\n{body}"
    );
    match written {
        Ok(()) => Ok(text),
        Err(_) => Err(NoMemory),
    }
}

/// How the service stands.
fn standing(
    alloc: Global,
    metrics: &Metrics,
    inside: Inside,
    now: Moment,
) -> Result<String, NoMemory> {
    let standing = Standing {
        kept: metrics.kept(),
        seconds: metrics.seconds(now),
        serving: metrics.is_serving(),
        stopped: metrics.stopped(),
        inside,
    };
    let body = print_standing(alloc, standing)?;
    page(alloc, "200 OK", JSON, body.as_str())
}

/// What it has done.
fn exposition(
    alloc: Global,
    metrics: &Metrics,
    inside: Inside,
    now: Moment,
) -> Result<String, NoMemory> {
    let families = metrics.families(alloc, inside, now)?;
    let body = print_families(alloc, families.as_slice())?;
    page(alloc, "200 OK", EXPOSITION, body.as_str())
}

/// The page that the message asks for.
fn answer<W: Watched>(
    alloc: Global,
    message: &Message,
    metrics: &Metrics,
    watched: &W,
    now: Moment,
) -> Result<String, NoMemory> {
    if message.method.as_str() != "GET" {
        return page(
            alloc,
            "405 Method Not Allowed",
            JSON,
            "{\"error\":\"method\"}",
        );
    }
    match message.target.as_str() {
        "/service/health" => standing(alloc, metrics, watched.look(), now),
        "/service/metrics" => exposition(alloc, metrics, watched.look(), now),
        _ => page(alloc, "404 Not Found", JSON, "{\"error\":\"path\"}"),
    }
}

/// Answers the first message of the link: `GET /service/health` by how the service stands, `GET /service/metrics` by what it has done.
/// Bytes that are no message aren't answered. Where the link fails, or memory is refused, so is this.
pub fn serve_page<T: Link, W: Watched>(
    alloc: Global,
    link: &mut T,
    metrics: &Metrics,
    watched: &W,
    now: Moment,
) -> Result<(), Failed> {
    let Ok(mut framer) = Framer::new(alloc) else {
        return Err(Failed);
    };
    let Ok(Next::Message(message)) = framer.next(alloc, link) else {
        return Err(Failed);
    };
    match answer(alloc, &message, metrics, watched, now) {
        Ok(text) => write_whole(link, text.as_str().as_bytes()),
        Err(NoMemory) => Err(Failed),
    }
}

/// How many seconds it waits behind a link that couldn't be accepted.
const PAUSE: u64 = 1;

/// Serves a page over each link of the listener, one after another, until no link is to come. A link that fails is let go.
pub fn serve_pages<R: rt::Clock, N: Listener, C: Clock, W: Watched>(
    rt: &R,
    alloc: Global,
    net: &mut N,
    clock: &mut C,
    metrics: &Metrics,
    watched: &W,
) {
    for _ in 0..u64::MAX {
        match net.accept() {
            Ok(Some(mut link)) => {
                let _ = serve_page(alloc, &mut link, metrics, watched, clock.now());
            }
            Ok(None) => return,
            Err(Failed) => thread::sleep(rt, Duration::from_secs(PAUSE)),
        }
    }
}
