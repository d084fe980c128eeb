//! Callers that are let in, and others that are not.

use crate::lines::{HEAD, UPGRADE, is_ok, line_of, serve, was_let_in, was_opened, was_shut};
use sg_lines::MemDoor;
use std::test::Fail;

const BAD: &[u8] = b"HTTP/1.1 400 Bad Request\r\nContent-Length: 0\r\nConnection: close\r\n\r\n";

/// A device that ends at once: the door was opened by the configuration, and the line took the upgrade.
#[test]
fn one_device(rt: HostRuntime) -> Result<(), Fail> {
    let alloc = rt.alloc();
    let mut lines = Vec::new(alloc);
    lines.push(line_of(alloc, HEAD)?)?;
    let mut door = MemDoor::new(alloc, lines);
    assert!(rt; is_ok(serve(&rt, alloc, &mut door)?), "how it ended");
    assert!(rt;
        was_opened(door.openings(), "127.0.0.1:4984", 4_294_967_295),
        "opened"
    );
    assert!(rt;
        door.traces().len() == 1 && was_let_in(door.traces(), 0, UPGRADE),
        "the trace"
    );
    Ok(())
}

/// A caller that says nothing, and one whose head is none, between two devices. Their traces come back in any order.
#[test]
fn others_among_devices(rt: HostRuntime) -> Result<(), Fail> {
    let alloc = rt.alloc();
    let mut lines = Vec::new(alloc);
    for head in [HEAD, b"".as_slice(), b"\n\n", HEAD] {
        lines.push(line_of(alloc, head)?)?;
    }
    let mut door = MemDoor::new(alloc, lines);
    assert!(rt; is_ok(serve(&rt, alloc, &mut door)?), "how it ended");
    let mut let_in = 0usize;
    let mut silent = 0usize;
    let mut bad = 0usize;
    for place in 0..door.traces().len() {
        if was_let_in(door.traces(), place, UPGRADE) {
            let_in = let_in.saturating_add(1);
        }
        if was_shut(door.traces(), place, b"") {
            silent = silent.saturating_add(1);
        }
        if was_shut(door.traces(), place, BAD) {
            bad = bad.saturating_add(1);
        }
    }
    assert!(rt;
        door.traces().len() == 4 && let_in == 2 && silent == 1 && bad == 1,
        "the traces"
    );
    Ok(())
}
