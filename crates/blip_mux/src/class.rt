//! The two classes of messages.

ghost use Rattle.std.specs.Prelude.{◌≡◌};
ghost use Rattle.blip_mux.specs.inner.Class.{class_of};

use blip_frame::Kind;

/// A message is a request, or a reply to one.
#[derive(Clone, Copy)]
pub(crate) enum Class {
    Request,
    Reply,
}

/// The class of the messages of a kind; of an acknowledgement, that of the messages that it is of.
pub(crate) fn class_of(kind: Kind) -> Class
    ensures { result ≡ class_of kind }
{
    match kind {
        Kind::Msg | Kind::AckMsg => Class::Request,
        Kind::Rpy | Kind::Err | Kind::AckRpy => Class::Reply,
    }
}
