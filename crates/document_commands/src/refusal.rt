// Why an input is not what is checked or shown.
use bandwidth_file::BandFault;
use daemon_words::DocumentRefusal;

/// Why an input is not what is checked or shown.
#[derive(Clone, Copy, Debug, PartialEq, Eq)]
pub enum SubjectRefusal {
    /// It is no document of the kind that is named.
    Document(DocumentRefusal),
    /// It is no bandwidth file, with its first fault.
    File(BandFault),
}
