// The command that makes a vote with the bandwidths of a file.
ghost use Rattle.std.specs.Prelude.{◌≡◌, ◌<◌, ◌^◌, Err, IfErr, length};
ghost use Rattle.dir_bytes.specs.Causes.{Counts, Rose};
ghost use Rattle.key_port.specs.Answers.{rules};
ghost use Rattle.daemon_words.specs.Stops.{Answered};
ghost use Rattle.station_commands.specs.WithFile.{FileVoteAnswers, IsBeforeSigner, IsOfStation};

use crate::behind::station_behind;
use crate::file_refusal::FileVoteRefusal;
use crate::file_told::{of_fault, of_file, of_vote};
use crate::front::file_of;
use crate::making::vote_from;
use crate::refusal::MakeVoteRefusal;
use bytes::Bytes;
use count_terms::Newest;
use daemon_words::Stop;
use dir_bytes::Clock;
use key_port::{Signer, Verifier};
use std::alloc::Global;

/// The signed vote of the station that is given behind the bandwidth file with which the input begins, as `make_vote` makes it, but
/// with the measured bandwidths that the file gives, and at the moment that the clock gives.
///
/// # Errors
/// `Refused` by the first that applies: the file's first fault; that it is too old; and then those of `make_vote`, with places in the
/// whole input. `Memory` is want of memory.
pub fn make_vote_with_file<C: Clock, V: Verifier, N: Signer>(
    alloc: Global,
    newest: Newest,
    bytes: &Bytes,
    clock: &mut C,
    verifier: &mut V,
    signer: &mut N,
) -> Result<Vec<u8>, Stop<FileVoteRefusal>>
    requires { length bytes.now < 2 ^ 61 }
    ensures answer { Answered (λ answer. FileVoteAnswers (rules V.may_accept V.may_refuse) N.may_give N.steps newest (C.last clock.new) bytes.now answer signer.old signer.new) result }
    ensures clock { Counts (C.asks clock.old) (C.asks clock.new) }
    ensures verifier_fault { result ≡ Err (Stop.Refused (FileVoteRefusal.Vote MakeVoteRefusal.Verifier)) → Rose (V.faults verifier.old) (V.faults verifier.new) }
    ensures verifier_told { V.faults verifier.old < V.faults verifier.new → result ≡ Err (Stop.Refused (FileVoteRefusal.Vote MakeVoteRefusal.Verifier)) }
    ensures signer_fault { result ≡ Err (Stop.Refused (FileVoteRefusal.Vote MakeVoteRefusal.Signer)) → Rose (N.faults signer.old) (N.faults signer.new) }
    ensures signer_told { N.faults signer.old < N.faults signer.new → result ≡ Err (Stop.Refused (FileVoteRefusal.Vote MakeVoteRefusal.Signer)) }
    ensures unasked { IfErr result (λ why. IsOfStation why → verifier.new ≡ verifier.old) }
    ensures unsigned { IfErr result (λ why. IsBeforeSigner why → signer.new ≡ signer.old) }
{
    let now = clock.now();
    let front = match file_of(alloc, bytes, now) {
        Ok(front) => front,
        Err(why) => return Err(of_file(why)),
    };
    let (station, used) = match station_behind(alloc, newest, bytes, &front) {
        Ok((station, used)) => (station, used),
        Err(why) => return Err(of_fault(why)),
    };
    match vote_from(alloc, bytes, &station, used, now, verifier, signer) {
        Ok(text) => Ok(text),
        Err(why) => Err(of_vote(why)),
    }
}
