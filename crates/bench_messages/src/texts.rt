//! The body of a `changes` of a device with rows of the shortest names, which is made, and read where that is asked for.

use blip_frame::{Kind, Payload, Prop, Props};
use blip_mux::Message;
use repl_messages::{Request, Version, read_request};
use sg_outside::{Bytes, Memory};
use std::alloc::{AllocError, Global};

/// The most rows that a message may have.
const ROWS: usize = 10_000;

fn body_of_rows(alloc: Global) -> Result<Bytes, Memory> {
    let mut body = Bytes::from_slice(alloc, b"[")?;
    for i in 0..ROWS {
        if i > 0 {
            body.push(b',')?;
        }
        body.extend_from_slice(b"[1,\"a\",\"1-a\"]")?;
    }
    body.push(b']')?;
    Ok(body)
}

fn message_of(alloc: Global, body: Bytes) -> Result<Message, Memory> {
    let mut props = Vec::new(alloc);
    props.push(Prop {
        key: String::from_str(alloc, "Profile")?,
        value: String::from_str(alloc, "changes")?,
    })?;
    Ok(Message {
        number: 1,
        kind: Kind::Msg,
        urgent: false,
        no_reply: false,
        payload: Payload {
            props: Props::from_vec(props),
            body,
        },
    })
}

/// How many revisions a message offers.
fn offered(alloc: Global, message: &Message) -> usize {
    match read_request(alloc, message, Version::Three) {
        Ok(Request::Changes { offers }) => offers.as_slice().len(),
        _ => 0,
    }
}

/// Makes the message, and reads it where the job is to: the bytes of its body, and how many revisions were read.
pub fn job(alloc: Global, name: &str) -> Result<(usize, usize), Memory> {
    let body = body_of_rows(alloc)?;
    let bytes = body.len();
    let message = message_of(alloc, body)?;
    let offers = match name {
        "read" => offered(alloc, &message),
        _ => 0,
    };
    Ok((bytes, offers))
}
