//! Scripts of the calls that fail.

ghost use Rattle.std.specs.Prelude.{◌≡◌};
ghost use Rattle.sg_outside.specs.Scripts.{fault_at, fails_at, one_more};

/// The bytes that are taken before the next call fails, if it does; counts the call.
pub(crate) fn next_fault(script: &[Option<usize>], calls: &mut usize) -> Option<usize>
    ensures fault { result ≡ fault_at script.now calls.old }
    ensures counted { calls.new ≡ one_more calls.old }
{
    let call = *calls;
    *calls = call.saturating_add(1);
    match script.get(call) {
        Some(fault) => *fault,
        None => None,
    }
}

/// Whether the script says that this call fails; counts the call.
pub(crate) fn next_fails(fails: &[bool], calls: &mut usize) -> bool
    ensures fails { result ≡ fails_at fails.now calls.old }
    ensures counted { calls.new ≡ one_more calls.old }
{
    let call = *calls;
    *calls = call.saturating_add(1);
    match fails.get(call) {
        Some(fails) => *fails,
        None => false,
    }
}
