// What a consensus says of one relay.
ghost use Rattle.std.specs.Prelude.{◌≡◌, ◌≤◌, IfOk, IfSome, option_map};
ghost use Rattle.dir_bytes.specs.Causes.{last_moment};
ghost use Rattle.compute_terms.specs.Routers as routers;
ghost use Rattle.compute_terms.specs.Tuples.{chosen_tuple};
ghost use Rattle.consensus_calc.specs.Routerlines.{routerline_with};

use crate::bandwidth::relay_bandwidth;
use consensus_terms::{Bandwidth, Routerline};
use dir_bytes::Memory;
use dir_values::{Fingerprint, FlagSet};
use relay_select::{Choice, Desk, choose_from};
use std::alloc::Global;
use vote_doc::Entry;

/// What a consensus by this method says of a relay with these flags and these entries. `None` comes where there is no entry.
pub fn routerline<'a>(
    alloc: Global,
    method: u32,
    most: Option<u32>,
    identity: Fingerprint,
    flags: FlagSet,
    entries: &[Entry<'a>],
    desk: &mut Desk<'a>,
    values: &mut Vec<u32>,
) -> Result<Option<Routerline>, Memory>
    ensures value { IfOk result (λ line. line ≡ option_map (routers.routerline_of method most identity flags entries.now) (chosen_tuple entries.now)) }
    ensures moment { IfOk result (λ line. IfSome line (λ said. said.published ≤ last_moment)) }
{
    let choice = choose_from(alloc, method, entries, desk)?;
    let w = relay_bandwidth(most, entries, values)?;
    Ok(with_choice(identity, flags, w, choice))
}

/// What is said of a relay with these flags and this bandwidth, where this is what was chosen.
fn with_choice(
    identity: Fingerprint,
    flags: FlagSet,
    w: Option<Bandwidth>,
    choice: Option<Choice>,
) -> Option<Routerline>
    requires { IfSome choice (λ chosen. chosen.published ≤ last_moment) }
    ensures value { result ≡ option_map (routerline_with identity flags w) choice }
    ensures moment { IfSome result (λ said. said.published ≤ last_moment) }
{
    match choice {
        Some(choice) => Some(Routerline {
            nickname: choice.nickname,
            identity,
            digest: choice.digest,
            published: choice.published,
            ip: choice.ip,
            or_port: choice.or_port,
            dir_port: choice.dir_port,
            a: choice.a,
            m: choice.m,
            flags,
            v: choice.v,
            pr: choice.pr,
            w,
            p: choice.p,
        }),
        None => None,
    }
}
