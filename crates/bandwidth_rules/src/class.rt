// The class of a relay.
ghost use Rattle.std.specs.Prelude.{◌≡◌};
ghost use Rattle.bandwidth_rules.specs.Classes as classes;

use consensus_terms::Routerline;
use dir_values::FlagSet;

/// The class of a relay, by the positions in a path that its flags suit it for (dir-spec, "Computing Bandwidth Weights").
#[derive(Clone, Copy, Debug, PartialEq, Eq)]
pub enum Class {
    /// It is a guard, and no exit.
    Guard,
    /// It is neither.
    Middle,
    /// It is an exit, and no guard.
    Exit,
    /// It is both.
    Both,
}

/// The class of a relay.
pub fn class_of(router: &Routerline) -> Class
    ensures { result ≡ classes.class_of router.now }
{
    match (is_guard(&router.flags), is_exit(&router.flags)) {
        (true, true) => Class::Both,
        (true, false) => Class::Guard,
        (false, true) => Class::Exit,
        (false, false) => Class::Middle,
    }
}

/// Whether a relay with these flags is a guard.
fn is_guard(flags: &FlagSet) -> bool
    ensures { result ≡ classes.is_guard flags.now }
{
    flags.contains(b"Guard")
}

/// Whether a relay with these flags is an exit.
fn is_exit(flags: &FlagSet) -> bool
    ensures { result ≡ classes.is_exit flags.now }
{
    flags.contains(b"Exit") && !flags.contains(b"BadExit")
}
