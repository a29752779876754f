// The text of a bandwidth file.
ghost use Rattle.std.specs.{Prelude.{◌≡◌, ◌++◌, IfOk, OnOk}, List.flat_map};
ghost use Rattle.bandwidth_file.specs.Texts.{header_text, text_of};

use crate::file::{BandFile, Header};
use dir_bytes::{Memory, push_decimal};
use std::alloc::Global;

/// The text of a bandwidth file: the time of measuring, the headers, `=====`, and a line for each relay, ascending by identity.
///
/// # Errors
/// `Memory` is want of memory.
pub fn write(alloc: Global, file: &BandFile) -> Result<Vec<u8>, Memory>
    ensures { IfOk result (λ text. text.items ≡ text_of file.now) }
{
    let mut out = Vec::new(alloc);
    push_decimal(&mut out, file.timestamp)?;
    out.push(b'\n')?;
    push_headers(&mut out, file.headers.as_slice())?;
    out.extend_from_slice(b"=====\n")?;
    file.relays.push(&mut out)?;
    Ok(out)
}

/// Appends header lines.
fn push_headers(out: &mut Vec<u8>, headers: &[Header]) -> Result<(), Memory>
    ensures { OnOk result (out.new.items ≡ out.old.items ++ flat_map header_text headers.now) }
{
    for header in headers {
        push_header(out, header)?;
    }
    Ok(())
}

/// Appends a header line.
fn push_header(out: &mut Vec<u8>, header: &Header) -> Result<(), Memory>
    ensures { OnOk result (out.new.items ≡ out.old.items ++ header_text header.now) }
{
    out.extend_from_slice(header.key.as_bytes())?;
    out.push(b'=')?;
    out.extend_from_slice(header.value.as_bytes())?;
    out.push(b'\n')?;
    Ok(())
}
