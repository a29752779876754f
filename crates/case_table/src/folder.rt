// A case that stands in a folder.
use crate::case::Case;
use crate::outside::take_outside;
use crate::texts::lines_of;
use anyhow::Result;
use std::fs;
use std::str::from_utf8;

/// Takes the words, the input, the text, the line and the status of a case from the files of a folder, and the moments of its
/// clock where there is a file of them.
pub fn take_folder(rt: &HostRuntime, case: &mut Case, folder: &str) -> Result<()> {
    let alloc = rt.alloc();
    let file = |name: &str| {
        let path = format!(in alloc; "{folder}/{name}")?;
        fs::read(rt, &path)
    };
    case.words = lines_of(alloc, from_utf8(&file("args")?)?)?;
    case.input = file("stdin")?;
    case.text = file("stdout")?;
    case.line = file("stderr")?;
    case.status = from_utf8(&file("status")?)?.trim().parse::<u64>()?;
    if let Ok(moments) = file("clock") {
        take_outside(alloc, &mut case.outer, "clock", from_utf8(&moments)?)?;
    }
    Ok(())
}
