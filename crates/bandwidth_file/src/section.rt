// The sections of a bandwidth file.
ghost use Rattle.std.specs.Prelude.{◌≡◌, ◌<◌, ◌^◌, length};
ghost use Rattle.bandwidth_file.specs.Files as files;
ghost use Rattle.bandwidth_file.specs.Lending as lending;

use crate::items::Items;

/// What the next line with more than blanks is.
#[derive(Clone, Copy, Debug, PartialEq, Eq)]
pub enum Section {
    /// The time of measuring.
    Time,
    /// A header line, or one that ends the header.
    Headers,
    /// A relay line.
    Relays,
}

/// Whether a line stands between header and relays.
pub(crate) fn is_separator(text: &[u8]) -> bool
    ensures { result ≡ files.is_separator text.now }
{
    text == b"=====".as_slice() || text == b"====".as_slice()
}

/// Whether a line has an item `node_id=`.
pub(crate) fn names_relay(text: &[u8]) -> bool
    requires { length text.now < 2 ^ 64 }
    ensures { result ≡ files.names_relay text.now }
{
    Items::of(0, text).node.is_some()
}

/// The section behind a line with more than blanks.
pub(crate) fn next_section(section: Section, text: &[u8]) -> Section
    requires { length text.now < 2 ^ 64 }
    ensures { result ≡ lending.next_section section text.now }
{
    match section {
        Section::Time => Section::Headers,
        Section::Headers => {
            if is_separator(text) || names_relay(text) {
                Section::Relays
            } else {
                Section::Headers
            }
        }
        Section::Relays => Section::Relays,
    }
}
