// What a microdescriptor says.
use crate::said::MicroId;
use dir_bytes::{Seq, Text};

/// A microdescriptor (dir-spec, "Computing microdescriptors"): what clients have to know of a relay, with a field for each of
/// its items.
#[derive(Debug, Drop)]
pub struct Micro {
    /// The relay's RSA onion key, where it has one.
    pub onion_key: Option<Text>,
    /// Its ntor onion key.
    pub ntor_onion_key: Option<[u8; 32]>,
    /// The relays of its family, in the order in which they stand.
    pub family: Option<Seq<Text>>,
    /// The families of which its Ed25519 identity has certificates, from method 35 on: the rest of the line, which is read no
    /// further.
    pub family_ids: Option<Text>,
    /// The summary of its exit policy, as it stands: the rest of the line, which is read no further.
    pub p: Option<Text>,
    /// That for IPv6, in the same way.
    pub p6: Option<Text>,
    /// Whose microdescriptor it is.
    pub id: Option<MicroId>,
}
