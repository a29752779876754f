// Pages, base64 of more bytes than a digest has, and the parts of an item.
use dir_bytes::read_base64;
use dirdoc_grammar::{Item, Items};
use std::test::Fail;
use text_page::Page;

// The base64 of the bytes from 0 to 99.
const HUNDRED: &[u8] =
    b"AAECAwQFBgcICQoLDA0ODxAREhMUFRYXGBkaGxwdHh8gISIjJCUmJygpKissLS4vMDEyMzQ1Njc4OTo7PD0+P0BBQkNERUZHSElKS0xNTk9QUVJTVFVWV1hZWltcXV5fYGFiYw";

#[test]
fn base64_is_read_into_as_many_bytes_as_it_has() -> Result<(), Fail> {
    let mut out = [0; 101];
    for (count, is_read) in [(99, false), (101, false), (100, true)] {
        if read_base64(HUNDRED, &mut out[..count]).is_ok() != is_read {
            return Err(Fail::new(count));
        }
    }
    for place in 0..100 {
        if usize::from(out[place]) != place {
            return Err(Fail::new(place));
        }
    }
    Ok(())
}

#[test]
fn a_page_without_room_is_spilt(rt: HostRuntime) -> Result<(), Fail> {
    let bytes = Vec::with_capacity(rt.alloc(), 8)?;
    let room = bytes.capacity();
    let mut page = Page::filling(bytes);
    'bytes: for _ in 0..room {
        page.put(b"x");
    }
    let full = page.count().is_some();
    page.put(b"x");
    if !full || page.count().is_some() {
        return Err(Fail::new("another count"));
    }
    Ok(())
}

#[test]
fn a_page_that_counts_has_no_bytes() -> Result<(), Fail> {
    let mut page = Page::counting();
    page.put_signed(-2147483648);
    page.put_moment(1767218400);
    if page.count() != Some(30) || page.into_bytes().is_some() {
        return Err(Fail::new("another count"));
    }
    Ok(())
}

const TEXT: &[u8] = b"\nkey \t x  y \t\n-----BEGIN X-----\nYW\nJj\n-----END X-----\nb\n";

// Whether this is the first item of the text behind its blank line.
fn is_first(item: &Item<'_>) -> bool {
    let Some(object) = &item.object else {
        return false;
    };
    item.keyword == b"key".as_slice()
        && item.argument(1) == Some(b"y".as_slice())
        && item.argument(2).is_none()
        && (item.place, item.start, item.after) == (1, 7, 54)
        && object.lines == b"YW\nJj\n".as_slice()
        && object.start == 32
}

#[test]
fn an_item_has_its_parts_and_places() -> Result<(), Fail> {
    let mut items = Items::starting_at(TEXT, 1, 54);
    match items.next()? {
        Some(item) if is_first(&item) => Ok(()),
        _ => Err(Fail::new("another item")),
    }
}
