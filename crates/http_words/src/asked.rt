// What a request asks for, by its method and path.
ghost use Rattle.std.specs.Prelude.{◌≡◌};
ghost use Rattle.dir_bytes.specs.Fields as fields;
ghost use Rattle.http_words.specs.Paths as paths;

use dir_bytes::read_hex;
use dir_http::Method2;

/// Which consensus.
#[derive(Clone, Copy, Debug, PartialEq, Eq)]
pub enum Form {
    Ns,
    Microdesc,
}

/// What a request asks for.
#[derive(Clone, Copy, Debug, PartialEq, Eq)]
pub enum Asked {
    /// To take a vote.
    PostVote,
    /// To take signatures.
    PostSignatures,
    /// To take a descriptor.
    PostDescriptor,
    /// The own vote.
    OwnVote,
    /// The vote of an authority, by its fingerprint.
    VoteOf([u8; 20]),
    /// The vote with a digest.
    VoteByDigest([u8; 20]),
    /// The consensus of the period, with the signatures held.
    Next(Form),
    /// The signatures held.
    NextSignatures,
    /// The consensus published last.
    Current(Form),
    /// The certificates of the held votes.
    AllKeys,
    /// The certificate of an authority.
    KeysOf([u8; 20]),
    /// The descriptors of the pool.
    AllDescriptors,
    /// The descriptor of a relay.
    DescriptorOf([u8; 20]),
    /// Microdescriptors, by the list of digests that begins at this place of the path and goes to its end.
    Micros(usize),
    /// Nothing that there is.
    Unknown,
    /// By a method that is neither GET nor POST.
    NotAllowed,
}

/// The twenty bytes that hex digits spell.
fn twenty(text: &[u8]) -> Option<[u8; 20]>
    ensures { result ≡ fields.hex 20 text.now }
{
    let mut out = [0u8; 20];
    match read_hex(text, &mut out) {
        Ok(()) => Some(out),
        Err(_) => None,
    }
}

/// What a POST asks for.
#[tactic(auto, unfolding(crate::specs::Paths::by_post))]
fn by_post(path: &[u8]) -> Asked
    ensures { result ≡ paths.by_post path.now }
{
    if path == b"/tor/post/vote".as_slice() {
        Asked::PostVote
    } else if path == b"/tor/post/consensus-signature".as_slice() {
        Asked::PostSignatures
    } else if path == b"/tor/".as_slice() {
        Asked::PostDescriptor
    } else {
        Asked::Unknown
    }
}

/// What a GET of a whole path asks for.
#[tactic(auto, unfolding(crate::specs::Paths::by_path))]
fn by_path(path: &[u8]) -> Option<Asked>
    ensures { result ≡ paths.by_path path.now }
{
    if path == b"/tor/status-vote/next/authority".as_slice() {
        Some(Asked::OwnVote)
    } else if path == b"/tor/status-vote/next/consensus".as_slice() {
        Some(Asked::Next(Form::Ns))
    } else if path == b"/tor/status-vote/next/consensus-microdesc".as_slice() {
        Some(Asked::Next(Form::Microdesc))
    } else if path == b"/tor/status-vote/next/consensus-signatures".as_slice() {
        Some(Asked::NextSignatures)
    } else if path == b"/tor/status-vote/current/consensus".as_slice() {
        Some(Asked::Current(Form::Ns))
    } else if path == b"/tor/status-vote/current/consensus-microdesc".as_slice() {
        Some(Asked::Current(Form::Microdesc))
    } else if path == b"/tor/keys/all".as_slice() {
        Some(Asked::AllKeys)
    } else if path == b"/tor/server/all".as_slice() {
        Some(Asked::AllDescriptors)
    } else {
        None
    }
}

/// What a GET of a path with a name at its end asks for.
#[tactic(auto, unfolding(crate::specs::Paths::by_name))]
fn by_name(path: &[u8]) -> Asked
    ensures { result ≡ paths.by_name path.now }
{
    if let Some(name) = path.strip_prefix(b"/tor/status-vote/next/d/") {
        return match twenty(name) {
            Some(digest) => Asked::VoteByDigest(digest),
            None => Asked::Unknown,
        };
    }
    if let Some(name) = path.strip_prefix(b"/tor/status-vote/next/") {
        return match twenty(name) {
            Some(authority) => Asked::VoteOf(authority),
            None => Asked::Unknown,
        };
    }
    if let Some(name) = path.strip_prefix(b"/tor/keys/fp/") {
        return match twenty(name) {
            Some(authority) => Asked::KeysOf(authority),
            None => Asked::Unknown,
        };
    }
    if let Some(name) = path.strip_prefix(b"/tor/server/fp/") {
        return match twenty(name) {
            Some(relay) => Asked::DescriptorOf(relay),
            None => Asked::Unknown,
        };
    }
    match path.strip_prefix(b"/tor/micro/d/") {
        Some(_) => Asked::Micros(13),
        None => Asked::Unknown,
    }
}

/// What a request asks for.
#[tactic(auto, unfolding(crate::specs::Paths::asked_by))]
pub fn asked_by(method: Method2, path: &[u8]) -> Asked
    ensures { result ≡ paths.asked_by method path.now }
{
    match method {
        Method2::Other => Asked::NotAllowed,
        Method2::Post => by_post(path),
        Method2::Get => match by_path(path) {
            Some(asked) => asked,
            None => by_name(path),
        },
    }
}
