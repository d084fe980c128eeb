//! Messages that are put.

ghost use Rattle.std.specs.Prelude.{◌≡◌, ◌+◌, ◌<◌, OnOk};
ghost use Rattle.session_core.specs.Conduct.{requests_among};
ghost use Rattle.session_run.specs.inner.Putting.{MayPut, MayPutAll, put_one, put_all};

use session_core::Act;
use session_mux::Mux;
use sg_outside::Memory;

/// Puts messages. Out of memory some of them may be put.
pub(crate) fn put(mux: &mut Mux, acts: Vec<Act>) -> Result<(), Memory>
    requires may { MayPutAll mux.old.outbox.waiting acts.items }
    requires room { mux.old.outbox.requests + requests_among acts.items < 18446744073709551615 }
    ensures ok { OnOk result (mux.new ≡ put_all acts.items mux.old) }
    ensures received { mux.new.received ≡ mux.old.received }
    ensures sent { mux.new.sent ≡ mux.old.sent }
{
    for act in acts {
        put_one(mux, act)?;
    }
    Ok(())
}

/// Puts one message.
fn put_one(mux: &mut Mux, act: Act) -> Result<(), Memory>
    requires may { MayPut mux.old.outbox.waiting act }
    requires room { mux.old.outbox.requests < 18446744073709551615 }
    ensures ok { OnOk result (mux.new ≡ put_one act mux.old) }
    ensures received { mux.new.received ≡ mux.old.received }
    ensures sent { mux.new.sent ≡ mux.old.sent }
{
    match act {
        Act::Reply {
            number,
            kind,
            urgent,
            payload,
        } => mux.put_reply(number, kind, urgent, payload),
        Act::Request { payload, no_reply } => mux.put_request(payload, no_reply),
        Act::Want(_) => unreachable!(),
    }
}
