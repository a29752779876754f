// Walks over the votes of two authorities.
use crate::votes::{
    ONE_LISTS_BOTH, ONE_LISTS_NONE, Pieces, TWO_LISTS_NONE, TWO_LISTS_ONE, checked,
};
use dir_values::Fingerprint;
use relay_select::Merge;
use std::alloc::Global;
use std::test::Fail;
use vote_doc::Accepted;

/// What two votes give, walked together, and what comes then: three times a relay with how many list it.
type Walked = [(Option<Fingerprint>, usize); 4];

fn walked(alloc: Global, one: Pieces, two: Pieces) -> Result<Walked, Fail> {
    let mut votes = Accepted::new(alloc, 2)?;
    let _ = votes.place(checked(alloc, one)?);
    let _ = votes.place(checked(alloc, two)?);
    let count = votes.len();
    let mut group = Vec::with_capacity(alloc, count)?;
    let mut walk = Merge::new(alloc, &votes)?;
    let mut found: Walked = [(None, 0); 4];
    found[0] = (walk.next(&mut group), group.len());
    found[1] = (walk.next(&mut group), group.len());
    found[2] = (walk.next(&mut group), group.len());
    found[3] = (walk.next(&mut group), group.len());
    Ok(found)
}

#[test]
fn a_walk_over_no_entries_has_ended(rt: HostRuntime) -> Result<(), Fail> {
    if walked(rt.alloc(), ONE_LISTS_NONE, TWO_LISTS_NONE)? != [(None, 0); 4] {
        return Err(Fail::new("another walk"));
    }
    Ok(())
}

#[test]
fn a_walk_gives_each_relay_once(rt: HostRuntime) -> Result<(), Fail> {
    let found = walked(rt.alloc(), ONE_LISTS_BOTH, TWO_LISTS_ONE)?;
    let wanted: Walked = [
        (Some(Fingerprint([1; 20])), 1),
        (Some(Fingerprint([2; 20])), 2),
        (None, 0),
        (None, 0),
    ];
    if found != wanted {
        return Err(Fail::new("another walk"));
    }
    Ok(())
}
