// What is found of what is asked for.
ghost use Rattle.std.specs.Prelude.{◌≡◌};
ghost use Rattle.key_port.specs.Answers.{rules};
ghost use Rattle.http_words.specs.DigestLists.{digest_list};
ghost use Rattle.serve_board.specs.{Going.Goes, Boards.IsAt};
ghost use Rattle.serve_answers.specs.Finding as finding;
ghost use Rattle.serve_answers.specs.Finding.{FindsAsked, FindsMicros};

use crate::held::AskNextSignatures;
use crate::keys::{AskAllKeys, AskKeys};
use crate::micros::AskMicros;
use crate::relays::{AskAllDescriptors, AskDescriptor};
use consensus_terms::Flavour;
use dir_bytes::{Memory, Text};
use dir_values::{Digest1, Fingerprint};
use http_words::{Asked, Form, behind, read_digests};
use key_port::Verifier;
use period_terms::Name;
use serve_board::{Board, Pass};
use std::alloc::Global;
use std::sync::Wait;

/// The flavour of a consensus.
fn flavour_of(form: Form) -> Flavour
    ensures { result ≡ finding.flavour_of form }
{
    match form {
        Form::Ns => Flavour::Ns,
        Form::Microdesc => Flavour::Microdesc,
    }
}

/// The microdescriptors of a list of digests, if it is one.
fn find_micros<R: Wait, V: Verifier>(
    rt: &R,
    alloc: Global,
    board: &Board<V>,
    pass: &mut Pass<V>,
    list: &[u8],
) -> Result<Option<Text>, Memory>
    requires at { IsAt board.now pass.old }
    ensures finds { FindsMicros (rules V.may_accept V.may_refuse) board.now pass.old pass.new
        (digest_list list.now) result }
    ensures at { IsAt board.now pass.new }
{
    match read_digests(alloc, list)? {
        Some(asked) => {
            let (found, _) = board.look(rt, pass, AskMicros { alloc, asked });
            found
        }
        None => Ok(None),
    }
}

/// What is found of what is asked for by a path, by one reading at most.
fn find_asked<R: Wait, V: Verifier>(
    rt: &R,
    alloc: Global,
    board: &Board<V>,
    pass: &mut Pass<V>,
    asked: Asked,
    path: &[u8],
) -> Result<Option<Text>, Memory>
    requires at { IsAt board.now pass.old }
    ensures finds { FindsAsked (rules V.may_accept V.may_refuse) board.now pass.old pass.new asked path.now result }
    ensures at { IsAt board.now pass.new }
{
    match asked {
        Asked::OwnVote => board.copy(rt, alloc, pass, &Name::Vote(board.own())),
        Asked::VoteOf(authority) => board.copy(
            rt,
            alloc,
            pass,
            &Name::Vote(Fingerprint(authority)),
        ),
        Asked::VoteByDigest(digest) => board.copy(
            rt,
            alloc,
            pass,
            &Name::VoteByDigest(Digest1(digest)),
        ),
        Asked::Next(form) => board.next_consensus(rt, alloc, pass, flavour_of(form)),
        Asked::NextSignatures => {
            let (found, _) = board.ask(rt, pass, AskNextSignatures { alloc });
            found
        }
        Asked::Current(form) => board.copy(rt, alloc, pass, &Name::Current(flavour_of(form))),
        Asked::AllKeys => {
            let (found, _) = board.ask(rt, pass, AskAllKeys { alloc });
            found
        }
        Asked::KeysOf(authority) => {
            let authority = Fingerprint(authority);
            let (found, _) = board.ask(rt, pass, AskKeys { alloc, authority });
            found
        }
        Asked::AllDescriptors => {
            let (found, _) = board.look(rt, pass, AskAllDescriptors { alloc });
            found
        }
        Asked::DescriptorOf(relay) => {
            let relay = Fingerprint(relay);
            let (found, _) = board.look(rt, pass, AskDescriptor { alloc, relay });
            found
        }
        Asked::Micros(place) => find_micros(rt, alloc, board, pass, behind(path, place)),
        Asked::PostVote
        | Asked::PostSignatures
        | Asked::PostDescriptor
        | Asked::Unknown
        | Asked::NotAllowed => Ok(None),
    }
}

/// What is found of what is asked for by a path: a document of the state or of the pool, if it is held. A path that asks for no
/// document finds none.
///
/// # Errors
/// `Memory` is want of memory.
pub fn find<R: Wait, V: Verifier>(
    rt: &R,
    alloc: Global,
    board: &Board<V>,
    pass: &mut Pass<V>,
    asked: Asked,
    path: &[u8],
) -> Result<Option<Text>, Memory>
    requires at { IsAt board.now pass.old }
    ensures finds { FindsAsked (rules V.may_accept V.may_refuse) board.now pass.old pass.new asked path.now result }
    ensures at { IsAt board.now pass.new }
    ensures goes { Goes pass.old pass.new }
{
    find_asked(rt, alloc, board, pass, asked, path)
}
