// What the lines of detached signatures say.
ghost use Rattle.std.specs.Prelude.{◌≡◌, ◌<◌, ◌+◌, ◌^◌, length};
ghost use Rattle.dir_values.specs.Taking.{argument_of};
ghost use Rattle.dirdoc_grammar.specs.Seen.{seen_item, IsInside};
ghost use Rattle.detached_frame.specs.Lines as lines;

use crate::said::{AdditionalDigestLine, AdditionalSignatureLine};
use dir_bytes::is_hex;
use dir_values::{Argument, Digest1};
use dirdoc_grammar::Item;
use frame_values::{
    Span, any_text, arguments_of, field, fingerprint, key_digest, object_of, take_argument,
};

/// The digest of a consensus, as 40 hex digits.
pub(crate) fn digest_of(item: &Item<'_>) -> Result<Digest1, u64>
    requires { IsInside item.now }
    ensures { result ≡ lines.digest_of (seen_item item.now) }
{
    let first = take_argument(&mut arguments_of(item), item.place);
    field(&first, key_digest(first.text))
}

/// Where bytes stand in hex, one byte or more.
fn hex(argument: &Argument<'_>) -> Option<Span>
    requires { argument.now.place + length argument.now.text.now < 2 ^ 64 }
    ensures { result ≡ lines.hex (argument_of argument.now) }
{
    if is_hex(argument.text) {
        any_text(argument)
    } else {
        None
    }
}

/// The digest of another flavour's consensus.
pub(crate) fn additional_digest_of(item: &Item<'_>) -> Result<AdditionalDigestLine, u64>
    requires { IsInside item.now }
    ensures { result ≡ lines.additional_digest_of (seen_item item.now) }
{
    let mut arguments = arguments_of(item);
    let first = take_argument(&mut arguments, item.place);
    let second = take_argument(&mut arguments, item.place);
    let third = take_argument(&mut arguments, item.place);
    let flavour = field(&first, any_text(&first))?;
    let algorithm = field(&second, any_text(&second))?;
    let digest = field(&third, hex(&third))?;
    Ok(AdditionalDigestLine {
        flavour,
        algorithm,
        digest,
    })
}

/// A signature over another flavour's consensus.
pub(crate) fn additional_signature_of(item: &Item<'_>) -> Result<AdditionalSignatureLine, u64>
    requires { IsInside item.now }
    ensures { result ≡ lines.additional_signature_of (seen_item item.now) }
{
    let mut arguments = arguments_of(item);
    let first = take_argument(&mut arguments, item.place);
    let second = take_argument(&mut arguments, item.place);
    let third = take_argument(&mut arguments, item.place);
    let fourth = take_argument(&mut arguments, item.place);
    let flavour = field(&first, any_text(&first))?;
    let algorithm = field(&second, any_text(&second))?;
    let identity = field(&third, fingerprint(third.text))?;
    let digest = field(&fourth, key_digest(fourth.text))?;
    let signature = object_of(true, item)?;
    Ok(AdditionalSignatureLine {
        flavour,
        algorithm,
        identity,
        key_digest: digest,
        signature,
    })
}
