// The texts of versions in the order of the versions.
ghost use Rattle.std.specs.{Prelude.◌≡◌, Option.option_cmp};
ghost use Rattle.dir_values.specs.Versions.{version_of, version_order};
ghost use Rattle.field_votes.specs.Versions.{text_order};

use dir_values::TorVersion;
use std::cmp::Ordering;

/// The text of a version, borrowed from where it stands. The greater is the more recent version.
#[derive(Drop)]
pub(crate) struct VersionText<'a> {
    pub(crate) text: &'a [u8],
}

impl<'a> PartialEq for VersionText<'a> {
    ghost use Rattle.std.specs.{Cmp.{partial_equiv_from_equiv, on_equiv, eq_by_cmp_equiv}, Ordering.eq_by_cmp};
    ghost use Rattle.field_votes.specs.{Versions.text_order, VersionKeys.texts_total};

    ghost eq = { λ a b. eq_by_cmp text_order a.text.now b.text.now };

    ghost laws = { partial_equiv_from_equiv (on_equiv (λ t. t.text.now) (eq_by_cmp_equiv texts_total)) };

    fn eq(&self, other: &Self) -> bool {
        self.cmp(other).is_eq()
    }
}

impl<'a> Eq for VersionText<'a> {
    ghost use Rattle.std.specs.Cmp.{on_equiv, eq_by_cmp_equiv};
    ghost use Rattle.field_votes.specs.VersionKeys.{texts_total};

    ghost laws = { on_equiv (λ t. t.text.now) (eq_by_cmp_equiv texts_total) };
}

impl<'a> PartialOrd for VersionText<'a> {
    ghost use Rattle.std.specs.{Prelude.{Some, refl}, Cmp.{partial_order_from_agreeing_total, on_total}};
    ghost use Rattle.field_votes.specs.{Versions.text_order, VersionKeys.texts_total};

    ghost partial_cmp = { λ a b. Some (text_order a.text.now b.text.now) };

    ghost laws = { partial_order_from_agreeing_total (λ a b. text_order a.text.now b.text.now) (on_total (λ t. t.text.now) texts_total) (λ a b. refl) (λ a b. refl) };

    fn partial_cmp(&self, other: &Self) -> Option<Ordering> {
        Some(self.cmp(other))
    }
}

impl<'a> Ord for VersionText<'a> {
    ghost use Rattle.std.specs.{Prelude.refl, Cmp.on_total};
    ghost use Rattle.field_votes.specs.{Versions.text_order, VersionKeys.texts_total};

    ghost cmp = { λ a b. text_order a.text.now b.text.now };

    ghost total = { on_total (λ t. t.text.now) texts_total };

    ghost matches_partial_cmp = { λ a b. refl };

    ghost matches_eq = { λ a b. refl };

    fn cmp(&self, other: &Self) -> Ordering {
        compare_texts(self.text, other.text)
    }
}

/// Compares two texts by the versions that they spell, and then by their bytes. One that spells none comes first.
fn compare_texts(a: &[u8], b: &[u8]) -> Ordering
    ensures { result ≡ text_order a.now b.now }
{
    compare_versions_in(a, b).then(a.cmp(b))
}

/// Compares the versions that two texts spell; one that spells none comes first.
fn compare_versions_in(a: &[u8], b: &[u8]) -> Ordering
    ensures { result ≡ option_cmp version_order (version_of a.now) (version_of b.now) }
{
    match (version_in(a), version_in(b)) {
        (None, None) => Ordering::Equal,
        (None, Some(_)) => Ordering::Less,
        (Some(_), None) => Ordering::Greater,
        (Some(version), Some(other)) => version.compare(&other),
    }
}

/// The version that a text spells, if it spells one.
fn version_in(text: &[u8]) -> Option<TorVersion<'_>>
    ensures { result ≡ version_of text.now }
{
    match TorVersion::read(text) {
        Ok(version) => Some(version),
        Err(_) => None,
    }
}
