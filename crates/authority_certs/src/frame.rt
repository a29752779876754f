// The frame of a certificate: the table of its items, and what they say.
ghost use Rattle.std.specs.Prelude.{◌≡◌};
ghost use Rattle.dirdoc_grammar.specs.Seen.{seen_item, IsInside};
ghost use Rattle.authority_certs.specs.Tables as tables;

use dirdoc_grammar::Item;
use frame_reader::{Frame, given};
use frame_terms::{Again, Keyword, Limit, ReadRefusal, Row, Shape, Taken};
use frame_values::{
    Value, argument_of, at_place, fingerprint_of, has_words, literal, object_of, time_of,
};
use std::alloc::Global;

/// A key certificate that stands alone, as a kind of document. Its one section has no name.
#[derive(Clone, Copy, Debug)]
pub struct CertFrame;

/// What an item of a certificate says.
#[derive(Clone, Copy, Debug)]
pub enum CertKind {
    /// `3`.
    Version,
    /// One argument, whatever it is.
    Address,
    /// An identity.
    Fingerprint,
    /// A date and a time of day.
    Time,
    /// A key, as an object.
    Key,
    /// The signing key's signature, as an object.
    Crosscert,
    /// The identity key's signature, as an object.
    Certification,
}

/// The rows of a certificate, the first one that of its opener, in a document that has their kinds in a variant of its own:
/// `cert_rows!(VoteKind::Certificate)`; or by themselves, `cert_rows!()`.
#[macro_export]
macro_rules! cert_rows {
    ($($variant:ident)::*) => {
        [
            $crate::cert_row!(DirKeyCertificateVersion, One, $($variant)::*($crate::CertKind::Version)),
            $crate::cert_row!(DirAddress, Optional, $($variant)::*($crate::CertKind::Address)),
            $crate::cert_row!(Fingerprint, One, $($variant)::*($crate::CertKind::Fingerprint)),
            $crate::cert_row!(DirIdentityKey, One, $($variant)::*($crate::CertKind::Key)),
            $crate::cert_row!(DirKeyPublished, One, $($variant)::*($crate::CertKind::Time)),
            $crate::cert_row!(DirKeyExpires, One, $($variant)::*($crate::CertKind::Time)),
            $crate::cert_row!(DirSigningKey, One, $($variant)::*($crate::CertKind::Key)),
            $crate::cert_row!(DirKeyCrosscert, One, $($variant)::*($crate::CertKind::Crosscert)),
            $crate::cert_row!(DirKeyCertification, One, $($variant)::*($crate::CertKind::Certification)),
        ]
    };
}

/// A row of a certificate: its keyword, its count and its kind.
#[macro_export]
macro_rules! cert_row {
    ($keyword:ident, $count:ident, $kind:expr) => {
        frame_terms::Row {
            keyword: frame_terms::Keyword::$keyword,
            count: frame_terms::Count::$count,
            kind: $kind,
        }
    };
}

const ROWS: [Row<CertKind>; 9] = cert_rows!();

/// How a certificate begins and ends, and how many bytes it may have inside another document.
pub fn cert_shape<S>() -> Shape<S>
    ensures { result ≡ tables.cert_shape }
{
    Shape {
        opener: Keyword::DirKeyCertificateVersion,
        last: Some(Keyword::DirKeyCertification),
        again: Again::Nothing,
        inner: None,
        limit: Some(Limit::Certificate),
    }
}

/// What an item of a certificate says, in a document whose own items say V.
///
/// # Errors
/// The place of what is wrong.
pub fn cert_value<V>(kind: CertKind, item: &Item<'_>) -> Result<Value<V>, u64>
    requires { IsInside item.now }
    ensures { result ≡ tables.cert_value kind (seen_item item.now) }
{
    match kind {
        CertKind::Version => {
            literal(b"3", item)?;
            Ok(Value::Nothing)
        }
        CertKind::Address => Ok(Value::Text(argument_of(item)?)),
        CertKind::Fingerprint => Ok(Value::Fingerprint(fingerprint_of(item)?)),
        CertKind::Time => Ok(Value::Number(time_of(item)?)),
        CertKind::Key => {
            let is_key = has_words(item, b"RSA PUBLIC KEY");
            Ok(Value::Object(object_of(is_key, item)?))
        }
        CertKind::Crosscert => {
            let is_crosscert = has_words(item, b"ID SIGNATURE") || has_words(item, b"SIGNATURE");
            Ok(Value::Object(object_of(is_crosscert, item)?))
        }
        CertKind::Certification => {
            let is_signature = has_words(item, b"SIGNATURE");
            Ok(Value::Object(object_of(is_signature, item)?))
        }
    }
}

impl Frame for CertFrame {
    type Section = ();

    type Kind = CertKind;

    type Value = Value<()>;

    type Across = ();

    ghost tables = { λ _. tables.cert_tables };

    fn first(self) {}

    fn sections(self) -> &'static [()] {
        &[()]
    }

    fn shape(self, _: ()) -> Shape<()> {
        cert_shape()
    }

    fn rows(self, _: ()) -> &'static [Row<CertKind>] {
        &ROWS
    }

    fn strangers(self, _: (), _: Keyword) -> bool {
        false
    }

    fn ignores(self, _: CertKind, _: &Item<'_>) -> bool {
        false
    }

    fn value(self, _: &(), kind: CertKind, item: &Item<'_>) -> Result<Value<()>, ReadRefusal> {
        given(at_place(cert_value(kind, item)))
    }

    fn start(self, _: Global) {}

    fn note(self, _: &mut (), _: &Taken<Value<()>>) -> Result<(), ReadRefusal> {
        Ok(())
    }
}
