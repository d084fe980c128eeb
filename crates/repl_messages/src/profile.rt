//! The messages of a device, distinguished by their property `Profile`.

ghost use Rattle.std.specs.Prelude.{◌≡◌};
ghost use Rattle.std.specs.Option.{option_copied};
ghost use Rattle.repl_messages.specs.Requests as requests;

use blip_frame::Props;

/// A message of a device that the gateway knows.
#[derive(Clone, Copy, Debug, PartialEq, Eq)]
pub enum Profile {
    GetCheckpoint,
    SetCheckpoint,
    SubChanges,
    Changes,
    ProposeChanges,
    Rev,
}

fn profile_named(name: &str) -> Option<Profile>
    ensures { result ≡ requests.profile_named name.now }
{
    match name {
        "getCheckpoint" => Some(Profile::GetCheckpoint),
        "setCheckpoint" => Some(Profile::SetCheckpoint),
        "subChanges" => Some(Profile::SubChanges),
        "changes" => Some(Profile::Changes),
        "proposeChanges" => Some(Profile::ProposeChanges),
        "rev" => Some(Profile::Rev),
        _ => None,
    }
}

/// The message of a device that these properties are of; none where the gateway knows none of its name.
pub fn profile_of(props: &Props) -> Option<Profile>
    ensures { result ≡ requests.profile_of props.now }
{
    match props.get("Profile") {
        Some(name) => profile_named(name),
        None => None,
    }
}
