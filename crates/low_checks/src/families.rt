// Families as relays write them.
use descriptor_frame::{canonical_family, push_names};
use dir_bytes::{Memory, Text};
use std::alloc::Global;
use std::test::Fail;

// The names of a family, and those of its canonical form.
const FAMILIES: [(&[&[u8]], &[u8]); 6] = [
    (&[b"beta", b"ALPHA", b"beta"], b"alpha beta"),
    (
        &[
            b"$2fd4e1c67a2d28fced849ee1bb76e7391b93eb12",
            b"84983E441C3BD26EBAAE4AA1F95129E5E54670F1",
        ],
        b"$2FD4E1C67A2D28FCED849EE1BB76E7391B93EB12 $84983E441C3BD26EBAAE4AA1F95129E5E54670F1",
    ),
    (
        &[
            b"$2fd4e1c67a2d28fced849ee1bb76e7391b93eb12=nick",
            b"$2fd4e1c67a2d28fced849ee1bb76e7391b93eb12~nick",
        ],
        b"$2FD4E1C67A2D28FCED849EE1BB76E7391B93EB12",
    ),
    (
        &[
            b"2fd4e1c67a2d28fced849ee1bb76e7391b93eb12=nick",
            b"84983E441C3BD26EBAAE4AA1F95129E5E54670F1~nick",
        ],
        b"$2FD4E1C67A2D28FCED849EE1BB76E7391B93EB12 $84983E441C3BD26EBAAE4AA1F95129E5E54670F1",
    ),
    (&[b"$nobody", b"a_b"], b"a_b"),
    (&[b"$nobody"], b""),
];

// The canonical family of these names, with spaces between them.
fn family(alloc: Global, names: &[&[u8]]) -> Result<Vec<u8>, Memory> {
    let mut texts = Vec::new(alloc);
    for name in names {
        texts.push(Text::copy_of(alloc, name)?)?;
    }
    let mut out = Vec::new(alloc);
    push_names(&mut out, canonical_family(alloc, &texts)?.as_slice())?;
    Ok(out)
}

#[test]
fn a_family_has_one_form(rt: HostRuntime) -> Result<(), Fail> {
    let mut row = 0u32;
    for (names, canonical) in FAMILIES {
        row = row.wrapping_add(1);
        if family(rt.alloc(), names)?.as_slice() != canonical {
            return Err(Fail::new(row));
        }
    }
    Ok(())
}
