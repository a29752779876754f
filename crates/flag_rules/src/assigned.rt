// Rulings and flags of relays.
ghost use Rattle.std.specs.Prelude.{◌≡◌, IfOk, All, map};
ghost use Rattle.flag_rules.specs.Flags as table;
ghost use Rattle.flag_rules.specs.{Relays.ruled_relays, Rules.{KeepsTo, AreRulings, AreAllowed}};

use crate::flags::Flags;
use crate::hook::{Hook, Rules};
use crate::relay::{RelayFacts, RuledRelay};
use crate::relay_flags::flags_of;
use crate::ruling::Ruling;
use dir_bytes::{Memory, Seq};
use std::alloc::Global;

/// What is ruled of relays, and their flags: one of each for each relay, in the order of the relays.
#[derive(Debug, Drop)]
pub struct Assigned {
    pub rulings: Seq<Ruling>,
    pub flags: Seq<Flags>,
}

/// Assigns the flags under rulings that the hook gives (dir-spec, "Assigning flags in a vote"); as it stands it asks once for each
/// relay.
/// `now` is the moment of the vote, in seconds since 1970-01-01 00:00:00 UTC.
pub fn assign<R: Rules, F: Fn(RelayFacts) -> Ruling>(
    alloc: Global,
    relays: &[RelayFacts],
    hook: &Hook<R, F>,
    now: u64,
) -> Result<Assigned, Memory>
    requires { KeepsTo R.allows F.pre F.post hook.now.rules hook.now.ask }
    ensures allowed { IfOk result (λ given. AreAllowed (R.allows hook.now.rules) relays.now given.rulings) }
    ensures asked { IfOk result (λ given. AreRulings (F.post hook.now.ask) relays.now given.rulings) }
    ensures flags { IfOk result (λ given. given.flags ≡ table.flags_of now (ruled_relays relays.now given.rulings)) }
{
    let ruled = rule_all(alloc, relays, hook)?;
    let flags = flags_of(alloc, now, &ruled)?;
    let rulings = rulings_of(alloc, &ruled)?;
    Ok(Assigned {
        rulings: Seq::new(rulings),
        flags: Seq::new(flags),
    })
}

/// The relays, each with the ruling that the hook gives.
fn rule_all<R: Rules, F: Fn(RelayFacts) -> Ruling>(
    alloc: Global,
    relays: &[RelayFacts],
    hook: &Hook<R, F>,
) -> Result<Vec<RuledRelay>, Memory>
    requires { KeepsTo R.allows F.pre F.post hook.now.rules hook.now.ask }
    ensures facts { IfOk result (λ ruled. map (λ relay. relay.facts) ruled.items ≡ relays.now) }
    ensures asked { IfOk result (λ ruled. All (λ relay. F.post hook.now.ask relay.facts relay.ruling) ruled.items) }
{
    let mut ruled = Vec::with_capacity(alloc, relays.len())?;
    for facts in relays {
        let ruling = hook.rule(facts);
        ruled.push(RuledRelay {
            facts: *facts,
            ruling,
        })?;
    }
    Ok(ruled)
}

/// The rulings alone.
fn rulings_of(alloc: Global, relays: &[RuledRelay]) -> Result<Vec<Ruling>, Memory>
    ensures { IfOk result (λ rulings. rulings.items ≡ map (λ relay. relay.ruling) relays.now) }
{
    let rulings: Vec<Ruling> = relays.iter().map(|relay| relay.ruling).collect(alloc)?;
    Ok(rulings)
}
