//! The requests getCheckpoint and setCheckpoint, and what is answered.

ghost use Rattle.std.specs.Prelude.{◌≡◌, ◌≢◌, ◌++◌, Ok, Err, IfOk, IfErr, option_and_then, Some, None, string_bytes, if◌then◌else◌};
ghost use Rattle.std.specs.Option.{option_copied};
ghost use Rattle.repl_messages.specs.Checkpoints as checkpoints;
ghost use Rattle.repl_messages.specs.Fields as fields;
ghost use Rattle.repl_messages.specs.Checkpoints.{IsCheckpointNumber, IsSetCheckpoint, checkpoint_rev, checkpoint_payload};

use crate::json_body::value_of;
use crate::request::{Field, Request, RequestFault, or_bad};
use crate::texts::push;
use blip_frame::{Payload, Props};
use sg_history::{Client, TextFault, read_decimal};
use sg_outside::{Bytes, Memory};
use std::alloc::{AllocError, Global};

/// The client that a property names.
fn client_of(alloc: Global, value: Option<&str>) -> Result<Client, RequestFault>
    ensures { result ≢ Err RequestFault.Memory → result
        ≡ fields.or_bad Field.Client
        (option_and_then checkpoints.client_of (option_copied value.entry)) }
{
    let Some(text) = value else {
        return Err(RequestFault::Bad400 {
            field: Field::Client,
        });
    };
    match Client::parse(alloc, text) {
        Ok(client) => Ok(client),
        Err(TextFault::Bad) => Err(RequestFault::Bad400 {
            field: Field::Client,
        }),
        Err(TextFault::Memory) => Err(RequestFault::Memory),
    }
}

/// The number of a checkpoint's revision.
fn number_of(value: Option<&str>) -> Option<u64>
    ensures { IsCheckpointNumber (option_copied value.entry) result }
{
    match value {
        None => Some(0),
        Some(text) => match text.strip_prefix("0-") {
            Some(number) => read_decimal(number),
            None => None,
        },
    }
}

/// Whether a body is a JSON object.
fn is_object(alloc: Global, body: &[u8]) -> Result<bool, AllocError>
    ensures { IfOk result
        (λ found. (if found then Some body.now else None) ≡ checkpoints.object_body body.now) }
{
    match value_of(alloc, body)? {
        Some(value) => Ok(value.is_object()),
        None => Ok(false),
    }
}

/// A body that is a JSON object.
fn object_body(alloc: Global, body: &Bytes) -> Result<Bytes, RequestFault>
    ensures { result ≢ Err RequestFault.Memory
        → result ≡ fields.or_bad Field.Body (checkpoints.object_body body.now) }
{
    if is_object(alloc, body.as_slice())? {
        Ok(body.copy(alloc)?)
    } else {
        Err(RequestFault::Bad400 { field: Field::Body })
    }
}

/// Reads the properties of a getCheckpoint.
pub(crate) fn read_get_checkpoint(alloc: Global, props: &Props) -> Result<Request, RequestFault>
    ensures ok { IfOk result (λ request. Ok request ≡ checkpoints.get_checkpoint props.now) }
    ensures refused { IfErr result (λ fault. fault ≢ RequestFault.Memory
        → Err fault ≡ checkpoints.get_checkpoint props.now) }
{
    let client = client_of(alloc, props.get("client"))?;
    Ok(Request::GetCheckpoint { client })
}

/// Reads a setCheckpoint.
pub(crate) fn read_set_checkpoint(alloc: Global, payload: &Payload) -> Result<Request, RequestFault>
    ensures ok { IfOk result (λ request. IsSetCheckpoint payload.now (Ok request)) }
    ensures refused { IfErr result (λ fault. fault ≢ RequestFault.Memory
        → IsSetCheckpoint payload.now (Err fault)) }
{
    set_checkpoint(alloc, number_of(payload.props.get("rev")), payload)
}

/// Reads a setCheckpoint whose number is read so.
fn set_checkpoint(
    alloc: Global,
    number: Option<u64>,
    payload: &Payload,
) -> Result<Request, RequestFault>
    ensures { result ≢ Err RequestFault.Memory
        → result ≡ checkpoints.set_checkpoint number payload.now }
{
    let client = client_of(alloc, payload.props.get("client"))?;
    let rev = or_bad(Field::Rev, number)?;
    let body = object_body(alloc, &payload.body)?;
    Ok(Request::SetCheckpoint { client, rev, body })
}

/// The text `0-N` of a checkpoint's revision.
pub(crate) fn checkpoint_string(alloc: Global, number: u64) -> Result<String, Memory>
    ensures { IfOk result (λ text. string_bytes text ≡ checkpoint_rev number) }
{
    format!(in alloc; "0-{number}")
}

/// The reply that a checkpoint has this number, with its body where it was asked for.
pub fn write_checkpoint(alloc: Global, rev: u64, body: &[u8]) -> Result<Payload, Memory>
    ensures { IfOk result (λ payload. payload ≡ checkpoint_payload rev body.now) }
{
    let rev = checkpoint_string(alloc, rev)?;
    let mut props = Vec::new(alloc);
    push(alloc, &mut props, "rev", rev)?;
    Ok(Payload {
        props: Props::from_vec(props),
        body: Bytes::from_slice(alloc, body)?,
    })
}
