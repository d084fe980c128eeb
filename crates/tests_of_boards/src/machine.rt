//! What a session's machine takes, and what is to be done in one list.

use blip_frame::read_payload;
use repl_messages::{Offers, Version};
use session_core::{Act, Acts, Core, Event, Want};
use sg_history::Name;
use std::alloc::Global;
use std::test::Fail;

/// Whether a machine without a feed takes an idle moment.
fn takes_idle(alloc: Global) -> Result<bool, Fail> {
    let core = Core::new(Name::parse(alloc, "ann")?, Version::Three, false);
    Ok(core.may_take(&Event::Idle { front: 0 }))
}

#[test]
fn no_idle_moment_is_taken_without_a_feed(rt: HostRuntime) -> Result<(), Fail> {
    assert!(rt; !takes_idle(rt.alloc())?);
    Ok(())
}

/// A request without properties.
fn request(alloc: Global) -> Result<Act, Fail> {
    Ok(Act::Request {
        payload: read_payload(alloc, b"\0")?,
        no_reply: true,
    })
}

/// One request in a list.
fn puts(alloc: Global) -> Result<Vec<Act>, Fail> {
    let mut puts = Vec::new(alloc);
    puts.push(request(alloc)?)?;
    Ok(puts)
}

/// A request, and what is wanted.
fn acts(alloc: Global, want: Option<Want>) -> Result<Acts, Fail> {
    match puts(alloc) {
        Ok(puts) => Ok(Acts { puts, want }),
        Err(fail) => {
            drop(want);
            Err(fail)
        }
    }
}

/// How many acts are in the list, and whether the last is a want.
fn listed(alloc: Global, want: Option<Want>) -> Result<(usize, bool), Fail> {
    let list = acts(alloc, want)?.into_list()?;
    let is_want = matches!(list.as_slice(), [.., Act::Want(_)]);
    Ok((list.len(), is_want))
}

#[test]
fn a_want_is_the_last_of_the_list(rt: HostRuntime) -> Result<(), Fail> {
    let offers = Offers::new(rt.alloc());
    assert!(rt; listed(rt.alloc(), Some(Want::Ask { offers }))? == (2, true));
    assert!(rt; listed(rt.alloc(), None)? == (1, false));
    Ok(())
}
