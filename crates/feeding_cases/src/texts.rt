// What was read, as text.
use dirdoc_grammar::{DocFault, DocReason, Item};
use std::alloc::{AllocError, Global};

/// Appends an item with its places.
pub fn push_item(alloc: Global, out: &mut Vec<u8>, item: &Item<'_>) -> Result<(), AllocError> {
    let Item {
        place,
        separator,
        start,
        line_end,
        after,
        ..
    } = *item;
    let places = format!(in alloc; "{place} {separator:?} {start} {line_end} {after} ")?;
    out.extend_from_slice(places.as_bytes())?;
    out.extend_from_slice(item.keyword)?;
    out.push(b' ')?;
    out.extend_from_slice(item.arguments)?;
    if let Some(object) = item.object {
        let start = object.start;
        let place = format!(in alloc; "\n{start} ")?;
        out.extend_from_slice(place.as_bytes())?;
        out.extend_from_slice(object.words)?;
        out.push(b'\n')?;
        out.extend_from_slice(object.lines)?;
    }
    out.push(b'\n')?;
    Ok(())
}

fn reason_text(reason: DocReason) -> &'static str {
    match reason {
        DocReason::Keyword => "keyword",
        DocReason::Nul => "nul",
        DocReason::Unterminated => "unterminated",
        DocReason::ObjectWords => "object words",
        DocReason::ObjectBase64 => "object base64",
        DocReason::ObjectEnd => "object end",
        DocReason::LineTooLong => "line too long",
        DocReason::DocumentTooLong => "document too long",
        DocReason::ObjectTooLong => "object too long",
    }
}

/// A fault with its place, or that there is none.
pub fn fault_text(alloc: Global, fault: Option<DocFault>) -> Result<String, AllocError> {
    let Some(DocFault { place, reason }) = fault else {
        return String::from_str(alloc, "no fault");
    };
    let reason = reason_text(reason);
    format!(in alloc; "{reason} at {place}")
}
