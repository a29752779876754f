// The words of kinds of changes.
ghost use Rattle.std.specs.Prelude.{◌≡◌};
ghost use Rattle.serve_work.specs.Reports as reports;

use period_terms::ChangeKind;

/// The word of a kind of changes.
pub(crate) fn kind_word(kind: ChangeKind) -> &'static [u8]
    ensures { result.now ≡ reports.kind_word kind }
{
    match kind {
        ChangeKind::Vote => b"vote",
        ChangeKind::Freeze => b"freeze",
        ChangeKind::Compute => b"compute",
        ChangeKind::NoConsensus => b"no-consensus",
        ChangeKind::Sign => b"sign",
        ChangeKind::NoOwnVote => b"no-own-vote",
        ChangeKind::Signature => b"signature",
        ChangeKind::Publish => b"publish",
        ChangeKind::Miss => b"miss",
        ChangeKind::Begin => b"begin",
    }
}
