// Two votes of one authority and one moment.
use crate::votes::{ONE_LISTS_NONE, ONE_OF_ANOTHER, Pieces, checked};
use dir_bytes::{BadField, read_hex};
use dir_values::Digest2;
use std::alloc::Global;
use std::test::Fail;
use vote_doc::{Accepted, Placed, Rank};

/// A vote, and the SHA-256 of the whole, by another program.
#[derive(Clone, Copy)]
struct Own {
    vote: Pieces,
    whole: &'static [u8],
}

const PLAIN: Own = Own {
    vote: ONE_LISTS_NONE,
    whole: b"49A6F6D207AA994C842CDCF199652F7D584598D57D0F402456B6AF04408F126D",
};

const ANOTHER: Own = Own {
    vote: ONE_OF_ANOTHER,
    whole: b"E6026310678B22A43711FCF6981DAEC0C689D16757DCD2F55E1BC453BBE50C0E",
};

// The rank of a vote that was published on 2025-12-31 23:50:00.
fn rank(own: Own) -> Result<Rank, BadField> {
    let mut whole = [0; 32];
    read_hex(own.whole, &mut whole)?;
    Ok(Rank {
        published: 1767225000,
        whole: Digest2(whole),
    })
}

// What placing two votes answers.
fn place_two(alloc: Global, one: Own, other: Own) -> Result<[Placed; 2], Fail> {
    let mut held = Accepted::new(alloc, 2)?;
    let first = held.place(checked(alloc, one.vote)?);
    let second = held.place(checked(alloc, other.vote)?);
    Ok([first, second])
}

#[test]
fn the_vote_of_the_greater_digest_is_held(rt: HostRuntime) -> Result<(), Fail> {
    let replaced = Placed::Replaced { old: rank(PLAIN)? };
    let older = Placed::Older {
        held: rank(ANOTHER)?,
    };
    for (one, other, answer) in [
        (PLAIN, ANOTHER, replaced),
        (ANOTHER, PLAIN, older),
        (PLAIN, PLAIN, Placed::Have { held: rank(PLAIN)? }),
    ] {
        if place_two(rt.alloc(), one, other)? != [Placed::Kept, answer] {
            return Err(Fail::new("another answer"));
        }
    }
    Ok(())
}
