// The commands over a bandwidth file.
ghost use Rattle.std.specs.Prelude.{◌<◌, ◌^◌};
ghost use Rattle.daemon_words.specs.Stops.{Answered};
ghost use Rattle.bandwidth_file.specs.Texts.{text_of};
ghost use Rattle.document_commands.specs.{Answers.check_text, BandwidthFiles.FileAnswers, Private.ReadsFile};

use crate::one::OK;
use bandwidth_file::{BandFault, BandFile, BandRefusal, read, write};
use daemon_words::Stop;
use std::alloc::Global;

/// `ok`, where the input is a bandwidth file.
pub fn check_file(alloc: Global, bytes: &[u8]) -> Result<Vec<u8>, Stop<BandFault>>
    ensures { Answered (FileAnswers check_text bytes.now) result }
{
    file_of(alloc, bytes)?;
    let text = Vec::from_slice(alloc, OK)?;
    Ok(text)
}

/// The canonical text of the bandwidth file that the input is.
pub fn show_file(alloc: Global, bytes: &[u8]) -> Result<Vec<u8>, Stop<BandFault>>
    ensures { Answered (FileAnswers text_of bytes.now) result }
{
    let file = file_of(alloc, bytes)?;
    let text = write(alloc, &file)?;
    Ok(text)
}

/// The bandwidth file that the input is.
fn file_of(alloc: Global, bytes: &[u8]) -> Result<BandFile, Stop<BandFault>>
    ensures { ReadsFile bytes.now result }
{
    match read(alloc, bytes) {
        Ok(file) => Ok(file),
        Err(BandRefusal::Fault { place, reason }) => Err(Stop::Refused(BandFault {
            place,
            reason,
        })),
        Err(BandRefusal::Memory) => Err(Stop::Memory),
    }
}
