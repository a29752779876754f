// The frame of a server descriptor: the table of its items.
ghost use Rattle.std.specs.Prelude.{◌≡◌};
ghost use Rattle.dirdoc_grammar.specs.Seen.{seen_item, IsInside};
ghost use Rattle.frame_reader.specs.Giving as giving;
ghost use Rattle.frame_reader.specs.Giving.{Gives};
ghost use Rattle.frame_values.specs.Faults as faults;
ghost use Rattle.descriptor_frame.specs.Lines as lines;
ghost use Rattle.descriptor_frame.specs.Tables as tables;

use crate::lines::{
    address_of, bandwidth_of, certificate_lines, ed_signature_of, hibernating_of, identity_of,
    key_of, padded_key_of, policy_of, ports_of, router_of, uptime_of,
};
use crate::said::{DescriptorKind, DescriptorValue};
use dirdoc_grammar::Item;
use frame_reader::{Frame, given};
use frame_terms::{Again, Count, Keyword, ReadRefusal, Row, Shape, Taken};
use frame_values::{Value, at_place, has_words, object_of, rest_of, time_of};
use std::alloc::Global;

/// A server descriptor, as a kind of document. Its one section has no name. Of an Ed25519 certificate and of ports it takes
/// memory, for as long as they are looked at.
#[derive(Clone, Copy)]
pub struct DescriptorFrame {
    /// Where that memory is taken from.
    pub alloc: Global,
}

/// A row: its keyword, its count and its kind.
macro_rules! row {
    ($keyword:ident, $count:ident, $kind:expr) => {
        Row {
            keyword: Keyword::$keyword,
            count: Count::$count,
            kind: $kind,
        }
    };
}

const ROWS: [Row<DescriptorKind>; 22] = [
    row!(Router, One, DescriptorKind::Router),
    row!(IdentityEd25519, Optional, DescriptorKind::Certificate),
    row!(MasterKeyEd25519, Optional, DescriptorKind::Key),
    row!(Platform, Optional, DescriptorKind::Rest),
    row!(Published, One, DescriptorKind::Time),
    row!(Fingerprint, Optional, DescriptorKind::Fingerprint),
    row!(Uptime, Optional, DescriptorKind::Uptime),
    row!(Bandwidth, One, DescriptorKind::Bandwidth),
    row!(Hibernating, Optional, DescriptorKind::Hibernating),
    row!(OnionKey, Optional, DescriptorKind::Object),
    row!(SigningKey, One, DescriptorKind::Object),
    row!(NtorOnionKey, Optional, DescriptorKind::PaddedKey),
    row!(Accept, Many, DescriptorKind::Policy(true)),
    row!(Reject, Many, DescriptorKind::Policy(false)),
    row!(Ipv6Policy, Optional, DescriptorKind::Ports),
    row!(Family, Optional, DescriptorKind::Rest),
    row!(OrAddress, Many, DescriptorKind::Address),
    row!(TunnelledDirServer, Optional, DescriptorKind::Nothing),
    row!(Proto, Optional, DescriptorKind::Rest),
    row!(Contact, Optional, DescriptorKind::Rest),
    row!(RouterSigEd25519, Optional, DescriptorKind::EdSignature),
    row!(RouterSignature, One, DescriptorKind::Signature),
];

/// A value, or the refusal at the place of what is wrong.
fn at<V>(value: Result<V, u64>) -> Result<V, ReadRefusal>
    ensures { result ≡ giving.given_result (faults.at_place value) }
{
    given(at_place(value))
}

/// What an item says, or the place of what is wrong.
fn value_at(
    alloc: Global,
    kind: DescriptorKind,
    item: &Item<'_>,
) -> Result<Value<DescriptorValue>, ReadRefusal>
    requires { IsInside item.now }
    ensures { Gives (faults.at_place (lines.value_at kind (seen_item item.now))) result }
{
    let own = match kind {
        DescriptorKind::Router => DescriptorValue::Router(at(router_of(item))?),
        DescriptorKind::Certificate => return Ok(Value::Object(certificate_lines(alloc, item)?)),
        DescriptorKind::Key => DescriptorValue::Key(at(key_of(item))?),
        DescriptorKind::Rest => return Ok(Value::Text(rest_of(item))),
        DescriptorKind::Time => return Ok(Value::Number(at(time_of(item))?)),
        DescriptorKind::Fingerprint => return Ok(Value::Fingerprint(at(identity_of(item))?)),
        DescriptorKind::Uptime => DescriptorValue::Uptime(at(uptime_of(item))?),
        DescriptorKind::Bandwidth => DescriptorValue::Bandwidth(at(bandwidth_of(item))?),
        DescriptorKind::Hibernating => DescriptorValue::Hibernating(at(hibernating_of(item))?),
        DescriptorKind::Object => return Ok(Value::Object(at(object_of(true, item))?)),
        DescriptorKind::PaddedKey => DescriptorValue::Key(at(padded_key_of(item))?),
        DescriptorKind::Policy(accept) => DescriptorValue::Policy(at(policy_of(accept, item))?),
        DescriptorKind::Ports => return Ok(Value::Text(ports_of(alloc, item)?)),
        DescriptorKind::Address => return Ok(Value::Text(at(address_of(item))?)),
        DescriptorKind::Nothing => return Ok(Value::Nothing),
        DescriptorKind::EdSignature => DescriptorValue::EdSignature(at(ed_signature_of(item))?),
        DescriptorKind::Signature => {
            let is_signature = has_words(item, b"SIGNATURE");
            return Ok(Value::Object(at(object_of(is_signature, item))?));
        }
    };
    Ok(Value::Own(own))
}

impl Frame for DescriptorFrame {
    type Section = ();

    type Kind = DescriptorKind;

    type Value = Value<DescriptorValue>;

    type Across = ();

    ghost tables = { λ _. tables.descriptor_tables };

    fn first(self) {}

    fn sections(self) -> &'static [()] {
        &[()]
    }

    fn shape(self, _: ()) -> Shape<()> {
        Shape {
            opener: Keyword::Router,
            last: Some(Keyword::RouterSignature),
            again: Again::Nothing,
            inner: None,
            limit: None,
        }
    }

    fn rows(self, _: ()) -> &'static [Row<DescriptorKind>] {
        &ROWS
    }

    fn strangers(self, _: (), _: Keyword) -> bool {
        false
    }

    fn ignores(self, _: DescriptorKind, _: &Item<'_>) -> bool {
        false
    }

    fn value(
        self,
        _: &(),
        kind: DescriptorKind,
        item: &Item<'_>,
    ) -> Result<Value<DescriptorValue>, ReadRefusal> {
        value_at(self.alloc, kind, item)
    }

    fn start(self, _: Global) {}

    fn note(self, _: &mut (), _: &Taken<Value<DescriptorValue>>) -> Result<(), ReadRefusal> {
        Ok(())
    }
}
