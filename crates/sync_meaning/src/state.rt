//! What a run knows and has done so far.

ghost use Rattle.std.specs.Prelude.{◌≡◌, List, ℕ, IfOk};
ghost use Rattle.sync_meaning.specs.Acts as acts;
ghost use Rattle.sync_meaning.specs.Acts.{Does};
ghost use Rattle.sync_meaning.specs.Statements as statements;
ghost use Rattle.sync_meaning.specs.Variables as variables;

use crate::Memory;
use crate::effects::Gathered;
use crate::variables::{Slot, Variables};
use sg_names::{Channels, Name, Names};
use std::alloc::Global;
use sync_tokens::Place;
use sync_values::{Rule, RuleKind, Stop, Value};

/// Who writes: a user with its roles and channels, or where there is none the administrator.
#[derive(Drop)]
pub struct Context {
    pub user: Option<Name>,
    pub roles: Names,
    pub channels: Channels,
}

impl Context {
    /// The same again.
    pub fn copy(&self, alloc: Global) -> Result<Context, Memory>
        ensures { IfOk result (λ made. made ≡ self.now) }
    {
        let user = match &self.user {
            Some(name) => Some(name.copy(alloc)?),
            None => None,
        };
        let roles = match self.roles.copy(alloc) {
            Ok(roles) => roles,
            Err(error) => {
                drop(user);
                return Err(error);
            }
        };
        match self.channels.copy(alloc) {
            Ok(channels) => Ok(Context {
                user,
                roles,
                channels,
            }),
            Err(error) => {
                drop(user);
                drop(roles);
                Err(error)
            }
        }
    }
}

/// What a run has made so far.
#[derive(Drop)]
pub struct State {
    pub context: Context,
    /// How many visits are left.
    pub visits: u32,
    pub variables: Variables,
    pub effects: Gathered,
}

impl State {
    /// So many visits at a place.
    #[tactic(auto, unfolding(crate::specs::Acts::visits))]
    pub fn take_visits(&mut self, count: u64, place: Place) -> Result<(), Stop>
        ensures { Does (acts.visits count place self.old) result self.new }
    {
        if u64::from(self.visits) < count {
            return Err(Stop::Deny(Rule {
                kind: RuleKind::Fuel,
                place,
            }));
        }
        self.visits -= count as u32;
        Ok(())
    }

    /// A visit of a place.
    pub fn visit(&mut self, place: Place) -> Result<(), Stop>
        ensures { Does (acts.visit place self.old) result self.new }
    {
        self.take_visits(1, place)
    }

    /// What a variable holds.
    pub fn read(&self, slot: &Slot) -> Result<Value, Memory>
        ensures { IfOk result (λ value. value
            ≡ variables.value_in slot.now.name slot.now.number self.now.variables) }
    {
        self.variables.value(slot)
    }

    /// A variable takes a value.
    #[tactic(auto, unfolding(crate::specs::Statements::store))]
    pub fn store(&mut self, alloc: Global, slot: &Slot, value: Value) -> Result<(), Stop>
        ensures { Does (statements.store slot.now.name slot.now.number value self.old) result
            self.new }
    {
        self.variables.write(alloc, slot, value)?;
        Ok(())
    }
}
