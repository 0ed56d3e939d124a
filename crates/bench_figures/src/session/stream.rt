// The bytes of links.
use crate::texts::{Draft, policy, request, user_of};
use rg_base::Seq;
use rg_ports::MemLink;
use std::alloc::{AllocError, Global};

/// Appends a message.
fn add_message(bytes: &mut String, target: &str, user: &str, body: &str) -> Result<(), AllocError> {
    let length = body.len();
    write!(
        bytes,
        "POST {target} HTTP/1.1\r\nHost: localhost\r\nx-user: {user}\r\nContent-Length: {length}\r\n\r\n{body}"
    )
}

/// A link that brings these bytes, as many as there is room for at each read.
fn link(alloc: Global, bytes: &str) -> Result<MemLink, AllocError> {
    Ok(MemLink::new(
        Seq::from_vec(Vec::from_slice(alloc, bytes.as_bytes())?),
        Seq::new(alloc),
        Seq::new(alloc),
        Seq::new(alloc),
    ))
}

/// A link by which root creates so many policies.
pub(super) fn policies(alloc: Global, count: u32) -> Result<MemLink, AllocError> {
    let mut bytes = String::new(alloc);
    for number in 0..count {
        let body = policy(alloc, Draft::new(number))?;
        add_message(
            &mut bytes,
            "/service/public/v2/api/policy",
            "root",
            body.as_str(),
        )?;
    }
    link(alloc, bytes.as_str())
}

/// A link that asks for so many decisions. Every other one is for the user whom the policy allows.
pub(super) fn requests(alloc: Global, policies: u32, count: u32) -> Result<MemLink, AllocError> {
    let mut bytes = String::new(alloc);
    for message in 0..count {
        let number = message % policies.max(1);
        let user = user_of(number).saturating_add(message % 2);
        let body = request(alloc, number, user)?;
        add_message(&mut bytes, "/service/decide/hive1", "app", body.as_str())?;
    }
    link(alloc, bytes.as_str())
}
