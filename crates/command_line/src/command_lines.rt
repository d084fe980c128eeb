//! The command lines, as commands that read them.

ghost use Rattle.std.specs.Prelude.{◌≡◌, IfOk, false};
ghost use Rattle.clap.specs.Walk.{rule_of};
ghost use Rattle.clap.specs.Simple.{app_of};
ghost use Rattle.command_line.specs.CommandLines as lines;
ghost use Rattle.command_line.specs.CommandLines.{feed_app, plain_app, replay_app, serve_app};

use clap::{Arg, ArgAction, Command};
use std::alloc::{AllocError, Global};

/// A word that is needed.
fn needed<'a>(alloc: Global, id: &'a str) -> Arg<'a>
    ensures rule { rule_of result ≡ lines.needed id.entry.now }
    ensures local { result.global ≡ false }
{
    Arg::new(alloc, id).required(true)
}

/// A flag, `--NAME`.
fn flag<'a>(alloc: Global, name: &'a str) -> Arg<'a>
    ensures rule { rule_of result ≡ lines.flag name.entry.now }
    ensures local { result.global ≡ false }
{
    Arg::new(alloc, name).long(name).action(ArgAction::SetTrue)
}

/// An option with one value, `--NAME VALUE`.
fn option<'a>(alloc: Global, name: &'a str) -> Arg<'a>
    ensures rule { rule_of result ≡ lines.option name.entry.now }
    ensures local { result.global ≡ false }
{
    Arg::new(alloc, name).long(name)
}

/// One word or more, behind all others.
fn several<'a>(alloc: Global, id: &'a str) -> Arg<'a>
    ensures rule { rule_of result ≡ lines.several id.entry.now }
    ensures local { result.global ≡ false }
{
    Arg::new(alloc, id).required(true).num_args(1..)
}

/// A command that answers to no request for help or a version.
fn plain<'a>(alloc: Global, name: &'a str) -> Command<'a>
    ensures { app_of result ≡ plain_app name.entry.now }
{
    Command::new(alloc, name)
        .disable_help_flag(true)
        .disable_version_flag(true)
}

/// The command line of `feed`.
pub(crate) fn feed_line<'a>(alloc: Global) -> Result<Command<'a>, AllocError>
    ensures { IfOk result (λ c. app_of c ≡ feed_app) }
{
    plain(alloc, "feed")
        .arg(flag(alloc, "active-only"))?
        .arg(flag(alloc, "no-revocations"))?
        .arg(option(alloc, "channels"))?
        .arg(needed(alloc, "journal"))?
        .arg(needed(alloc, "user"))?
        .arg(needed(alloc, "since"))
}

/// The command line of `replay`.
pub(crate) fn replay_line<'a>(alloc: Global) -> Result<Command<'a>, AllocError>
    ensures { IfOk result (λ c. app_of c ≡ replay_app) }
{
    plain(alloc, "replay")
        .arg(needed(alloc, "config"))?
        .arg(needed(alloc, "admin"))?
        .arg(several(alloc, "files"))
}

/// The command line of `serve`.
pub(crate) fn serve_line<'a>(alloc: Global) -> Result<Command<'a>, AllocError>
    ensures { IfOk result (λ c. app_of c ≡ serve_app) }
{
    plain(alloc, "serve").arg(needed(alloc, "config"))
}
