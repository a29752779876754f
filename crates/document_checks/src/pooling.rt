// Descriptors from outside in a pool.
use crate::descriptors::descriptor_of;
use crate::holding::{Which, text_of};
use bytes::Bytes;
use descriptor_doc::check;
use key_port::TestKeys;
use std::alloc::Global;
use std::test::Fail;
use vote_pool::{Keep, Pool, PoolEntry, prepare};

/// What a pool answers.
#[derive(Clone, Copy, PartialEq, Eq)]
enum Word {
    Kept,
    Replaced,
    Have,
    Older { held: [u8; 20] },
    Other,
}

fn word_of(answer: Keep) -> Word {
    match answer {
        Keep::Kept => Word::Kept,
        Keep::Replaced => Word::Replaced,
        Keep::Have => Word::Have,
        Keep::Older { held } => {
            let digest = held.digest.0;
            Word::Older { held: digest }
        }
        _ => Word::Other,
    }
}

fn entry_of(alloc: Global, text: &'static [u8]) -> Result<PoolEntry<TestKeys>, Fail> {
    let descriptor = descriptor_of(alloc, &Bytes::from(text))?;
    let mut keys = TestKeys::new(Vec::new(alloc));
    let Ok(checked) = check(descriptor, &mut keys) else {
        return Err(Fail::new("one that does not hold"));
    };
    Ok(prepare(alloc, checked)?)
}

// The digest of the one without Ed25519 items, by another program. That of the other of its relay begins with 7dee.
const PLAIN_DIGEST: [u8; 20] = [
    0xd8, 0x3f, 0x81, 0x43, 0x4f, 0x8e, 0xc0, 0x58, 0x5e, 0x0e, 0xea, 0x3b, 0x8f, 0xa7, 0x5a, 0x1b,
    0xb5, 0x30, 0x44, 0xd6,
];

// A descriptor, what is answered of it, and how many are held then, after how many changes. All are published at one moment.
const CASES: [(Which, Word, usize, u32); 6] = [
    (Which::Lasts, Word::Kept, 1, 1),
    (Which::Plain, Word::Replaced, 1, 2),
    (Which::Lasts, Word::Older { held: PLAIN_DIGEST }, 1, 2),
    (Which::Plain, Word::Have, 1, 2),
    (Which::Whole, Word::Kept, 2, 3),
    (Which::Signed, Word::Kept, 3, 4),
];

#[test]
fn a_pool_holds_the_greater_of_two_descriptors(rt: HostRuntime) -> Result<(), Fail> {
    let mut pool = Pool::new(rt.alloc())?;
    let mut row = 0u32;
    for (which, want, len, changes) in CASES {
        row = row.wrapping_add(1);
        let word = word_of(pool.keep(entry_of(rt.alloc(), text_of(which))?));
        if word != want || pool.len() != len || pool.changes() != changes {
            return Err(Fail::new(row));
        }
    }
    Ok(())
}
