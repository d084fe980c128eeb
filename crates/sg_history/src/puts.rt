//! Puts and drops of users and roles, as entries record them.

use sg_names::{Channels, Name, Names};

/// A user or a role, by its name.
#[derive(Clone, Copy)]
pub enum Principal<'a> {
    User(&'a Name),
    Role(&'a Name),
}

/// What a put gives a user or a role.
#[derive(Clone, Copy)]
pub struct Given<'a> {
    pub channels: &'a Channels,
    /// The roles of a user; none where a role is put.
    pub roles: Option<&'a Names>,
}

/// The put of a user or role, or its drop.
#[derive(Clone, Copy)]
pub struct Put<'a> {
    pub of: Principal<'a>,
    /// What it has from then on; none where it is dropped.
    pub given: Option<Given<'a>>,
}
