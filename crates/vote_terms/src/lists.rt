// What a vote says in lists of values.
use list_values::{Params, ProtoRanges, VersionList};

/// What the lines of a vote's preamble say that are lists of values (dir-spec, "Vote and consensus status document formats"). Of a
/// line that the vote has not there is none; a bare keyword is a list without members.
#[derive(Debug, Drop)]
pub struct VoteLists {
    /// The versions that are recommended to clients, in their order.
    pub client_versions: Option<VersionList>,
    /// The versions that are recommended to relays, in their order.
    pub server_versions: Option<VersionList>,
    /// The versions of protocols that are recommended to clients.
    pub recommended_client_protocols: Option<ProtoRanges>,
    /// Those that are recommended to relays.
    pub recommended_relay_protocols: Option<ProtoRanges>,
    /// Those that are required of clients.
    pub required_client_protocols: Option<ProtoRanges>,
    /// Those that are required of relays.
    pub required_relay_protocols: Option<ProtoRanges>,
    /// The params.
    pub params: Option<Params>,
}
