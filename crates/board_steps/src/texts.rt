//! The names in effects, which are text.

ghost use Rattle.std.specs.Prelude.{IsUtf8};
ghost use Rattle.std.specs.List.{All};
ghost use Rattle.sg_names.specs.Channels.{channels_text};
ghost use Rattle.sg_names.specs.Grants as grants;
ghost use Rattle.sg_names.specs.RoleGrants as roles;

use sg_history::{ChannelName, Grant, Grantee, Name, RoleGrant};
use sync_eval::Effects;

/// Passes over the names of channels.
fn pass_channels(channels: &[ChannelName])
    ensures { All (λ name. IsUtf8 name) channels.now }
{
    for channel in channels {
        let _ = channel.as_str();
    }
}

fn pass_name(name: &Name)
    ensures { IsUtf8 name.now }
{
    let _ = name.as_str();
}

fn pass_grantee(to: &Grantee)
    ensures { IsUtf8 (grants.grantee_text to.now) }
{
    match to {
        Grantee::User(name) => pass_name(name),
        Grantee::Role(name) => pass_name(name),
    }
}

fn pass_grant(grant: &Grant)
    ensures { IsUtf8 (grants.grant_text grant.now) }
{
    pass_grantee(&grant.to);
    let _ = grant.channel.as_str();
}

/// Passes over the names in grants of channels.
fn pass_grants(list: &[Grant])
    ensures { All (λ grant. IsUtf8 (grants.grant_text grant)) list.now }
{
    for grant in list {
        pass_grant(grant);
    }
}

fn pass_role(grant: &RoleGrant)
    ensures { IsUtf8 (roles.role_grant_text grant.now) }
{
    pass_name(&grant.user);
    pass_name(&grant.role);
}

/// Passes over the names in grants of roles.
fn pass_roles(list: &[RoleGrant])
    ensures { All (λ grant. IsUtf8 (roles.role_grant_text grant)) list.now }
{
    for grant in list {
        pass_role(grant);
    }
}

/// Passes over the names in effects, so that contracts know their texts to be UTF-8.
pub(crate) fn pass_effects(effects: &Effects)
    ensures channels { IsUtf8 (channels_text effects.now.channels) }
    ensures grants { IsUtf8 (grants.grants_text effects.now.grants) }
    ensures roles { IsUtf8 (roles.role_grants_text effects.now.roles) }
{
    pass_channels(effects.channels.as_slice());
    pass_grants(effects.grants.as_slice());
    pass_roles(effects.roles.as_slice());
}
