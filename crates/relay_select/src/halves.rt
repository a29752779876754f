// The entry of an identity in a vote.
ghost use Rattle.std.specs.Prelude.{◌≡◌, ◌<◌, IfSome, length};
ghost use Rattle.relay_select.specs.Walks.{place_from};

use dir_values::Fingerprint;
use vote_doc::Vote;

/// The place of the entry of an RSA identity in a vote, found by halves.
pub fn place_of(vote: &Vote, identity: &Fingerprint) -> Option<usize>
    ensures value { result ≡ place_from 0 vote.now.says.entries identity.now }
    ensures within { IfSome result (λ place. place < length vote.now.says.entries) }
{
    let mut low = 0;
    let mut high = vote.len();
    'halves: while low < high {
        let middle = low + (high - low) / 2;
        let found = vote.entry(middle).identity();
        if found.is_same(identity) {
            return Some(middle);
        }
        if found.is_below(identity) {
            low = middle + 1;
        } else {
            high = middle;
        }
    }
    None
}
