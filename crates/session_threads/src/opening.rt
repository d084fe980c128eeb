//! The roles and the users of a configuration, put as the first entries of a history, as far as it has room for them.

ghost use Rattle.std.specs.Prelude.{◌≡◌, ◌++◌, ◌∷◌, [], IsTrue, IsUtf8, IfOk, OnOk, take};
ghost use Rattle.std.specs.List.{All};
ghost use Rattle.sg_names.specs.Channels.{channels_text, is_channels};
ghost use Rattle.sg_names.specs.Grammar.{is_channel_name, is_name};
ghost use Rattle.sg_names.specs.Names.{is_names, names_text};
ghost use Rattle.sg_history.specs.Journal.{IsEntry};
ghost use Rattle.principals.specs.Script.{entry_of};
ghost use Rattle.session_threads.specs.Opening.{IsSortedOf, IsOpening, IsRoleEntry, IsUserEntry};
ghost use Rattle.session_threads.specs.Opened.{HasOwnLog, IsCommandRun, IsGrownByAll, IsOpened, is_taken};

use gateway_config::{Config, ConfigRole, ConfigRoles, ConfigUser, ConfigUsers};
use log_views::in_order;
use sg_history::{ChannelName, Channels, Name, Names};
use sg_outside::Memory;
use std::alloc::{AllocError, Global};
use write_path::{Command, Ground, Outcome, Shelf, SoloGround};

/// Passes over the names of channels, so that contracts know them to be in their grammar and UTF-8.
fn pass_channels(channels: &[ChannelName])
    ensures { All (λ name. IsTrue (is_channel_name name) × IsUtf8 name) channels.now }
{
    for channel in channels {
        let _ = channel.as_str();
    }
}

/// Passes over the names of roles in the same way.
fn pass_names(names: &[Name])
    ensures { All (λ name. IsTrue (is_name name) × IsUtf8 name) names.now }
{
    for name in names {
        let _ = name.as_str();
    }
}

/// Channels in their order, each once.
fn channels_in_order(channels: Channels) -> Channels
    ensures order { IsSortedOf channels result }
    ensures grammar { IsTrue (is_channels result) × IsUtf8 (channels_text result) }
{
    let channels = in_order(channels.into_vec());
    pass_channels(channels.as_slice());
    Channels::from_vec(channels)
}

/// Names in their order, each once.
fn names_in_order(names: Names) -> Names
    ensures order { IsSortedOf names result }
    ensures grammar { IsTrue (is_names result) × IsUtf8 (names_text result) }
{
    let names = in_order(names.into_vec());
    pass_names(names.as_slice());
    Names::from_vec(names)
}

/// The command that puts a role.
fn put_role(alloc: Global, role: &ConfigRole) -> Result<Command, Memory>
    ensures entry { IfOk result (λ c. IsRoleEntry role.now (entry_of c)) }
    ensures grammar { IfOk result (λ c. IsEntry (entry_of c)) }
{
    let _ = role.name.as_str();
    let channels = channels_in_order(role.channels.copy(alloc)?);
    Ok(Command::PutRole(role.name.copy(alloc)?, channels))
}

/// The command that puts a user.
fn put_user(alloc: Global, user: &ConfigUser) -> Result<Command, Memory>
    ensures entry { IfOk result (λ c. IsUserEntry user.now (entry_of c)) }
    ensures grammar { IfOk result (λ c. IsEntry (entry_of c)) }
{
    let _ = user.name.as_str();
    let channels = channels_in_order(user.channels.copy(alloc)?);
    let roles = names_in_order(user.roles.copy(alloc)?);
    Ok(Command::PutUser(user.name.copy(alloc)?, channels, roles))
}

/// Goes on where a command's entry is stored, and where the log has no room for it.
fn taken(outcome: &Outcome) -> Result<(), Memory>
    ensures { OnOk result (IsTrue (is_taken outcome.now)) }
{
    match outcome {
        Outcome::Stored { .. } | Outcome::LogFull509 { .. } => Ok(()),
        _ => Err(AllocError),
    }
}

/// Runs a command.
pub fn run_command(ground: &mut SoloGround, command: Command) -> Outcome
    requires entry { IsEntry (entry_of command) }
    requires own { HasOwnLog ground.old }
    ensures commanded { IsCommandRun ground.old.board.log (entry_of command) result
        ground.new.board.log }
    ensures own { HasOwnLog ground.new }
{
    write_path::laws::own_entries();
    ground.command(command)
}

/// Runs a command, which stores its entry where the log has room for it.
fn put(ground: &mut SoloGround, command: Command) -> Result<(), Memory>
    requires entry { IsEntry (entry_of command) }
    requires own { HasOwnLog ground.old }
    requires opened { IsOpened ground.old.board.log }
    ensures log { OnOk result (ground.new.board.log
        ≡ take 3999999 (ground.old.board.log ++ entry_of command ∷ [])) }
    ensures own { HasOwnLog ground.new }
    ensures opened { IsOpened ground.new.board.log }
{
    let outcome = run_command(ground, command);
    taken(&outcome)
}

/// Puts the roles.
fn put_roles(alloc: Global, ground: &mut SoloGround, roles: &[ConfigRole]) -> Result<(), Memory>
    requires own { HasOwnLog ground.old }
    requires opened { IsOpened ground.old.board.log }
    ensures roles { OnOk result (IsGrownByAll IsRoleEntry roles.now ground.old.board.log
        ground.new.board.log) }
    ensures own { HasOwnLog ground.new }
    ensures opened { IsOpened ground.new.board.log }
{
    for role in roles {
        put(ground, put_role(alloc, role)?)?;
    }
    Ok(())
}

/// Puts the users.
fn put_users(alloc: Global, ground: &mut SoloGround, users: &[ConfigUser]) -> Result<(), Memory>
    requires own { HasOwnLog ground.old }
    requires opened { IsOpened ground.old.board.log }
    ensures users { OnOk result (IsGrownByAll IsUserEntry users.now ground.old.board.log
        ground.new.board.log) }
    ensures own { HasOwnLog ground.new }
    ensures opened { IsOpened ground.new.board.log }
{
    for user in users {
        put(ground, put_user(alloc, user)?)?;
    }
    Ok(())
}

/// Puts the roles, and then the users, at a ground without entries, as far as its log has room for them.
pub fn open(
    alloc: Global,
    ground: &mut SoloGround,
    roles: &ConfigRoles,
    users: &ConfigUsers,
) -> Result<(), Memory>
    requires empty { ground.old.board.log ≡ [] }
    requires own { HasOwnLog ground.old }
    ensures opening { OnOk result (IsOpening roles.now users.now ground.new.board.log) }
    ensures own { HasOwnLog ground.new }
    ensures opened { IsOpened ground.new.board.log }
{
    put_roles(alloc, ground, roles.as_slice())?;
    put_users(alloc, ground, users.as_slice())
}

/// The shelf whose history is that of a configuration's roles and users.
pub fn opened(alloc: Global, shelf: Shelf, config: &Config) -> Result<Shelf, Memory>
    requires empty { shelf.board.log ≡ [] }
    requires pending { shelf.board.pending ≡ [] }
    requires rooms { shelf.board.rooms ≡ [] }
    ensures opening { IfOk result (λ s. IsOpening config.now.roles config.now.users s.board.log) }
    ensures opened { IfOk result (λ s. IsOpened s.board.log) }
    ensures pending { IfOk result (λ s. s.board.pending ≡ []) }
    ensures rooms { IfOk result (λ s. s.board.rooms ≡ []) }
{
    let mut ground = SoloGround::new(shelf);
    match open(alloc, &mut ground, &config.roles, &config.users) {
        Ok(()) => Ok(ground.into_inner()),
        Err(fault) => {
            drop(ground);
            Err(fault)
        }
    }
}
