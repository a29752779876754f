// The line and the number of each reason why a list of votes gives no consensus.
ghost use Rattle.std.specs.Prelude.{◌≡◌, ◌≤◌, []};
ghost use Rattle.exit_status.specs.VoteLines as lines;
ghost use Rattle.exit_status.specs.{Parts.joined_parts, Reports.Reports};

use crate::parts::write_parts;
use compute_command::VoteListRefusal;
use dir_bytes::Sink;
use vote_terms::VoteWord;

/// The number with which the process ends.
pub(crate) fn votes_number(refusal: VoteListRefusal) -> u8
    ensures { result ≡ lines.votes_number refusal }
{
    match refusal {
        VoteListRefusal::Vote { .. } => 6,
        VoteListRefusal::TooFew { .. } => 7,
    }
}

/// The word of a line for the clause that a vote fails.
fn word_text(word: VoteWord) -> &'static [u8]
    ensures { result.now ≡ lines.word_text word }
{
    match word {
        VoteWord::ValidAfter => b"valid-after",
        VoteWord::Authority => b"authority",
        VoteWord::Fingerprint => b"fingerprint",
        VoteWord::Expired => b"expired",
        VoteWord::Certification => b"certification",
        VoteWord::Crosscert => b"crosscert",
        VoteWord::Signature => b"signature",
    }
}

/// Writes why a list of votes gives no consensus.
pub fn report_votes<E: Sink>(errors: &mut E, refusal: VoteListRefusal)
    ensures { Reports (E.written errors.old) (E.written errors.new) (E.faults errors.old) (E.faults errors.new)
        (joined_parts (lines.votes_parts refusal)) }
{
    match refusal {
        VoteListRefusal::Vote { number, word } => {
            let mut k = itoa::Buffer::new();
            let k = k.format(number);
            write_parts(
                errors,
                &[
                    b"vote ",
                    k.as_bytes(),
                    b" refused: ",
                    word_text(word),
                    b"\n",
                ],
            )
        }
        VoteListRefusal::TooFew { held, roster } => {
            let mut count = itoa::Buffer::new();
            let count = count.format(held);
            let mut members = itoa::Buffer::new();
            let members = members.format(roster);
            write_parts(
                errors,
                &[
                    b"too few votes: ",
                    count.as_bytes(),
                    b" of ",
                    members.as_bytes(),
                    b"\n",
                ],
            )
        }
    }
}
