// Which of two descriptors of a relay is the newer.
ghost use Rattle.std.specs.Prelude.{◌≡◌};
ghost use Rattle.vote_pool.specs.Ranks as ranks;

use dir_values::Digest1;

/// When a descriptor was made, and its digest. Of two descriptors of a relay the one of greater rank is held: the later, or of
/// two of one moment that of the greater digest.
#[derive(Clone, Copy)]
pub struct DescriptorRank {
    /// In seconds since 1970-01-01 00:00:00 UTC.
    pub published: u64,
    /// The digest that the relay's identity key signs.
    pub digest: Digest1,
}

/// Whether two ranks are one.
pub(crate) fn is_same_rank(a: &DescriptorRank, b: &DescriptorRank) -> bool
    ensures { result ≡ ranks.is_same_rank a.now b.now }
{
    a.published == b.published && a.digest.0 == b.digest.0
}

/// Whether a rank is greater than another.
pub(crate) fn is_newer(a: &DescriptorRank, b: &DescriptorRank) -> bool
    ensures { result ≡ ranks.is_newer a.now b.now }
{
    a.published > b.published
        || (a.published == b.published && b.digest.0.as_slice().cmp(a.digest.0.as_slice()).is_lt())
}
