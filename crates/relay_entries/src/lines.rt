// What the lines of an entry say.
ghost use Rattle.std.specs.Prelude.{◌≡◌, Some};
ghost use Rattle.dir_values.specs.Taking.{argument_of};
ghost use Rattle.dirdoc_grammar.specs.Seen.{seen_item, IsInside};
ghost use Rattle.relay_entries.specs.Lines as lines;

use crate::fields::{address, digest1, digest2, ed_opinion, identity, methods, with_argument};
use crate::said::{Bandwidths, EdOpinion, MicroLine, RelayLine};
use dir_values::{Argument, Arguments, Digest2, port_of};
use dirdoc_grammar::Item;
use frame_values::{Span, arguments_of, day, field, ip, nickname, second_of_day, take_argument};

/// A relay.
pub fn relay_of(item: &Item<'_>) -> Result<RelayLine, u64>
    requires { IsInside item.now }
    ensures { result ≡ lines.relay_of (seen_item item.now) }
{
    let mut arguments = arguments_of(item);
    let name = take_argument(&mut arguments, item.place);
    let identity_text = take_argument(&mut arguments, item.place);
    let digest_text = take_argument(&mut arguments, item.place);
    let date_text = take_argument(&mut arguments, item.place);
    let time_text = take_argument(&mut arguments, item.place);
    let ip_text = take_argument(&mut arguments, item.place);
    let or_port = take_argument(&mut arguments, item.place);
    let dir_port = take_argument(&mut arguments, item.place);
    let nickname = field(&name, nickname(&name))?;
    let fingerprint = field(&identity_text, identity(identity_text.text))?;
    let digest = field(&digest_text, digest1(digest_text.text))?;
    let days = field(&date_text, day(date_text.text))?;
    let seconds = field(&time_text, second_of_day(time_text.text))?;
    let number = field(&ip_text, ip(ip_text.text))?;
    let or_number = field(&or_port, port_of(or_port.text))?;
    let dir_number = field(&dir_port, port_of(dir_port.text))?;
    Ok(RelayLine {
        nickname,
        identity: fingerprint,
        digest,
        published: 86400 * days as u64 + seconds as u64,
        ip: number,
        or_port: or_number,
        dir_port: dir_number,
    })
}

/// Where one argument stands that ends with a colon and a port.
pub fn address_of(item: &Item<'_>) -> Result<Span, u64>
    requires { IsInside item.now }
    ensures { result ≡ lines.address_of (seen_item item.now) }
{
    let first = take_argument(&mut arguments_of(item), item.place);
    field(&first, address(&first))
}

/// Bandwidths by the arguments that are left.
#[tactic(auto, unfolding(crate::specs::Lines::with_arguments))]
fn with_arguments(arguments: &mut Arguments<'_>) -> Result<Bandwidths, u64>
    ensures { result ≡ lines.with_arguments lines.no_bandwidths arguments.old }
{
    let mut said = Bandwidths {
        bandwidth: None,
        measured: None,
    };
    'arguments: while let Some(argument) = arguments.next() {
        said = field(&argument, with_argument(said, argument.text))?;
    }
    Ok(said)
}

/// A relay's bandwidths.
pub fn bandwidths_of(item: &Item<'_>) -> Result<Bandwidths, u64>
    requires { IsInside item.now }
    ensures { result ≡ lines.bandwidths_of (seen_item item.now) }
{
    with_arguments(&mut arguments_of(item))
}

/// Whether an argument names a digest of SHA-256.
fn names_sha256(argument: &Argument<'_>) -> bool
    ensures { result ≡ lines.names_sha256 (argument_of argument.now) }
{
    argument.text.strip_prefix(b"sha256=").is_some()
}

/// The digest that such an argument names.
fn named_digest(argument: &Argument<'_>) -> Result<Option<Digest2>, u64>
    ensures { result ≡ lines.named_digest (Some (argument_of argument.now)) }
{
    let digest = match argument.text.strip_prefix(b"sha256=") {
        Some(text) => digest2(text),
        None => None,
    };
    Ok(Some(field(argument, digest)?))
}

/// The first SHA-256 digest of the arguments that are left.
fn digest_among(arguments: &mut Arguments<'_>) -> Result<Option<Digest2>, u64>
    ensures { result ≡ lines.digest_among arguments.old }
{
    'arguments: while let Some(argument) = arguments.next() {
        if names_sha256(&argument) {
            return named_digest(&argument);
        }
    }
    Ok(None)
}

/// The same, where an argument has to be left.
fn some_digest(item: u64, arguments: &mut Arguments<'_>) -> Result<Option<Digest2>, u64>
    ensures { result ≡ lines.some_digest item arguments.old }
{
    let Some(first) = arguments.next() else {
        return Err(item);
    };
    if names_sha256(&first) {
        named_digest(&first)
    } else {
        digest_among(arguments)
    }
}

/// Methods, and the digest of the microdescriptor that they make.
pub fn micro_of(item: &Item<'_>) -> Result<MicroLine, u64>
    requires { IsInside item.now }
    ensures { result ≡ lines.micro_of (seen_item item.now) }
{
    let mut arguments = arguments_of(item);
    let first = take_argument(&mut arguments, item.place);
    let methods = field(&first, methods(&first))?;
    let digest = some_digest(item.place, &mut arguments)?;
    Ok(MicroLine { methods, digest })
}

/// The argument after `ed25519`: a key or `none`.
pub fn ed_of(item: &Item<'_>) -> Result<EdOpinion, u64>
    requires { IsInside item.now }
    ensures { result ≡ lines.ed_of (seen_item item.now) }
{
    let mut arguments = arguments_of(item);
    let _ = take_argument(&mut arguments, item.place);
    let second = take_argument(&mut arguments, item.place);
    field(&second, ed_opinion(second.text))
}
