//! What can be called.

ghost use Rattle.std.specs.Prelude.{◌≡◌};
ghost use Rattle.sync_resolve.specs.Names as spec;
ghost use Rattle.sync_resolve.specs.inner.Rules.{rules};
ghost use Rattle.sync_resolve.specs.Expressions as expressions;

/// How many arguments a call takes.
#[derive(Clone, Copy)]
pub enum Takes {
    Nothing,
    One,
    Two,
    OneOrMore,
}

impl Takes {
    /// Whether so many are taken.
    pub(crate) fn fits(self, count: usize) -> bool
        ensures { result ≡ expressions.fits self count }
    {
        match self {
            Takes::Nothing => count == 0,
            Takes::One => count == 1,
            Takes::Two => count == 2,
            Takes::OneOrMore => count >= 1,
        }
    }
}

/// How many arguments the function of this name takes by which a rule denies, if there is one.
fn rule_takes(name: &str) -> Option<Takes>
    ensures { result ≡ spec.lookup_name rules name.now }
{
    if name == "requireUser" || name == "requireRole" || name == "requireAccess" {
        Some(Takes::One)
    } else if name == "requireAdmin" {
        Some(Takes::Nothing)
    } else {
        None
    }
}

/// How many arguments the function of this name takes, if one is built in.
#[tactic(auto, unfolding(crate::specs::Names::function_takes))]
pub(crate) fn function_takes(name: &str) -> Option<Takes>
    ensures { result ≡ spec.function_takes name.now }
{
    if name == "channel" {
        Some(Takes::OneOrMore)
    } else if name == "access" || name == "role" {
        Some(Takes::Two)
    } else {
        rule_takes(name)
    }
}

/// How many arguments the method of this name takes, if there is one.
#[tactic(auto, unfolding(crate::specs::Names::method_takes))]
pub(crate) fn method_takes(name: &str) -> Option<Takes>
    ensures { result ≡ spec.method_takes name.now }
{
    if name == "indexOf" || name == "concat" || name == "startsWith" {
        Some(Takes::One)
    } else {
        None
    }
}

/// Whether a function of this name is built in.
#[tactic(auto, unfolding(crate::specs::Names::is_function))]
pub(crate) fn is_function(name: &str) -> bool
    ensures { result ≡ spec.is_function name.now }
{
    function_takes(name).is_some()
}
