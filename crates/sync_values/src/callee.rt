//! What is called.

use crate::value::Value;

/// A method of values.
#[derive(Clone, Copy, PartialEq, Eq)]
pub enum Method {
    IndexOf,
    Concat,
    StartsWith,
}

/// A function that is built in.
#[derive(Clone, Copy, PartialEq, Eq)]
pub enum Builtin {
    Channel,
    Access,
    Role,
    RequireUser,
    RequireRole,
    RequireAccess,
    RequireAdmin,
    IsArray,
}

/// What an expression evaluates to. All but `Value` come where a call follows.
#[derive(Drop)]
pub enum Target {
    Value(Value),
    Method(Value, Method),
    Builtin(Builtin),
    /// What can't be called.
    Nothing,
}
