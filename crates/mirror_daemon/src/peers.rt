// The addresses of the peers.
ghost use Rattle.std.specs.{Prelude.{◌≡◌, IfOk}, Option.option_map};
ghost use Rattle.mirror_daemon.specs.Words as words;

use daemon_words::is_address;
use dir_bytes::{Memory, Text};
use list_values::Parts;
use std::alloc::Global;

/// How many peers a mirror asks at most.
const MOST_PEERS: usize = 32;

/// The 1 to 32 addresses of a text with one comma between them.
pub(crate) fn read_peers(alloc: Global, text: &[u8]) -> Result<Option<Vec<Text>>, Memory>
    ensures { IfOk result (λ peers. option_map (λ v. v.items) peers ≡ words.peers text.now) }
{
    let mut peers = Vec::new(alloc);
    let mut parts = Parts::of(text);
    'peers: while let Some(part) = parts.next() {
        if peers.len() == MOST_PEERS {
            return Ok(None);
        }
        if !is_address(part) {
            return Ok(None);
        }
        peers.push(Text::copy_of(alloc, part)?)?;
    }
    Ok(Some(peers))
}
