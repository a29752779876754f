// The rows of the tables: an item of a section, how often it stands, and what it says.
ghost use Rattle.std.specs.Prelude.{◌≡◌};
ghost use Rattle.frame_terms.specs.Rows as rows;

use crate::keyword::Keyword;

/// How often an item stands in its section.
#[derive(Clone, Copy, Debug, PartialEq, Eq)]
pub enum Count {
    /// Once.
    One,
    /// At most once.
    Optional,
    /// Any number of times.
    Many,
}

/// What may not stand more than so many times, or be longer than so many bytes.
#[derive(Clone, Copy, Debug, PartialEq, Eq)]
pub enum Limit {
    /// The flags of a `known-flags` line: 64.
    KnownFlags,
    /// The methods of a `consensus-methods` line: 64.
    Methods,
    /// The bytes of a key certificate inside another document: 65,536.
    Certificate,
    /// The votes of an input: 64.
    Votes,
    /// The relay entries of a vote: 65,535.
    Entries,
    /// The parameters of a `params` line: 1,024.
    Params,
}

/// An item of a section, with what it says as one of the kinds that its document has.
#[derive(Clone, Copy, Debug)]
pub struct Row<K> {
    /// Its keyword.
    pub keyword: Keyword,
    /// How often it stands.
    pub count: Count,
    /// What it says.
    pub kind: K,
}

impl Limit {
    /// The greatest number that is read.
    pub fn number(self) -> u64
        ensures { result ≡ rows.limit_number self }
    {
        match self {
            Limit::KnownFlags | Limit::Methods | Limit::Votes => 64,
            Limit::Certificate => 65_536,
            Limit::Entries => 65_535,
            Limit::Params => 1_024,
        }
    }

    /// Its name in messages.
    pub fn name(self) -> &'static [u8]
        ensures { result.now ≡ rows.limit_name self }
    {
        match self {
            Limit::KnownFlags => b"known-flags",
            Limit::Methods => b"methods",
            Limit::Certificate => b"certificate",
            Limit::Votes => b"votes",
            Limit::Entries => b"entries",
            Limit::Params => b"params",
        }
    }
}
