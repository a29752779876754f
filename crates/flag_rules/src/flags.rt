// The flags of a relay.
ghost use Rattle.std.specs.Prelude.{◌≡◌, IfOk, OnOk};
ghost use Rattle.flag_rules.specs.{Names.names_of, Private.with_name};

use dir_bytes::Memory;
use dir_values::FlagSet;
use std::alloc::Global;

/// Which flags a relay has (dir-spec, "Assigning flags in a vote").
#[derive(Clone, Copy, Debug, PartialEq, Eq)]
pub struct Flags {
    pub bad_exit: bool,
    pub exit: bool,
    pub fast: bool,
    pub guard: bool,
    pub hs_dir: bool,
    pub middle_only: bool,
    pub running: bool,
    pub stable: bool,
    pub stale_desc: bool,
    pub sybil: bool,
    pub v2_dir: bool,
    pub valid: bool,
}

impl Flags {
    /// The set of the names of the flags that the relay has.
    pub fn names(&self, alloc: Global) -> Result<FlagSet, Memory>
        ensures { IfOk result (λ names. names ≡ names_of self.now) }
    {
        let mut names = FlagSet::new(alloc);
        insert_if(&mut names, alloc, self.bad_exit, b"BadExit")?;
        insert_if(&mut names, alloc, self.exit, b"Exit")?;
        insert_if(&mut names, alloc, self.fast, b"Fast")?;
        insert_if(&mut names, alloc, self.guard, b"Guard")?;
        insert_if(&mut names, alloc, self.hs_dir, b"HSDir")?;
        insert_if(&mut names, alloc, self.middle_only, b"MiddleOnly")?;
        insert_if(&mut names, alloc, self.running, b"Running")?;
        insert_if(&mut names, alloc, self.stable, b"Stable")?;
        insert_if(&mut names, alloc, self.stale_desc, b"StaleDesc")?;
        insert_if(&mut names, alloc, self.sybil, b"Sybil")?;
        insert_if(&mut names, alloc, self.v2_dir, b"V2Dir")?;
        insert_if(&mut names, alloc, self.valid, b"Valid")?;
        Ok(names)
    }
}

/// Puts a name into a set, where it is to stand.
fn insert_if(names: &mut FlagSet, alloc: Global, flag: bool, name: &[u8]) -> Result<(), Memory>
    ensures { OnOk result (names.new ≡ with_name flag name.now names.old) }
{
    if flag {
        names.insert(alloc, name)?;
    }
    Ok(())
}
