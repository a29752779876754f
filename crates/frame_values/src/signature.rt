// Objects, and the signature of a vote.
ghost use Rattle.std.specs.Prelude.{◌≡◌};
ghost use Rattle.dir_values.specs.Taking.{argument_of};
ghost use Rattle.dirdoc_grammar.specs.Seen.{seen_item, seen_object_if, IsInside};
ghost use Rattle.frame_values.specs.Arguments as arguments;
ghost use Rattle.frame_values.specs.Signatures as signatures;

use crate::arguments::{arguments_of, take_argument};
use crate::fields::{field, fingerprint, key_digest, span};
use crate::found::{Span, VoteSignature};
use dir_values::{Algorithm, Argument, Arguments};
use dirdoc_grammar::Item;

/// Whether an item has an object, which has these words.
pub fn has_words(item: &Item<'_>, words: &[u8]) -> bool
    ensures { result ≡ signatures.has_words (seen_object_if item.now.object) words.now }
{
    match item.object {
        Some(object) => object.words == words,
        None => false,
    }
}

/// Where the lines of an item's object stand, if it is the one that is wanted.
pub fn object_of(is_wanted: bool, item: &Item<'_>) -> Result<Span, u64>
    requires { IsInside item.now }
    ensures { result ≡ signatures.object_of is_wanted (seen_item item.now) }
{
    match item.object {
        Some(object) => {
            if is_wanted {
                Ok(span(object.start, object.lines))
            } else {
                Err(item.place)
            }
        }
        None => Err(item.place),
    }
}

/// The algorithm that the first argument names, if it is no fingerprint.
fn algorithm_if(first: &Argument<'_>) -> Result<Option<Algorithm>, u64>
    ensures { result ≡ signatures.algorithm_if (argument_of first.now) }
{
    if fingerprint(first.text).is_some() {
        return Ok(None);
    }
    Ok(Some(field(first, Algorithm::of_name(first.text))?))
}

/// The arguments of an item after the algorithm, where one is named.
fn after_algorithm<'a>(name: Option<Algorithm>, item: &Item<'a>) -> Arguments<'a>
    requires { IsInside item.now }
    ensures { result ≡ signatures.after_algorithm name (arguments.arguments_of (seen_item item.now)) }
{
    let mut arguments = arguments_of(item);
    if name.is_some() {
        let _ = take_argument(&mut arguments, item.place);
    }
    arguments
}

/// By whom a document is signed.
fn signed_by(
    name: Option<Algorithm>,
    arguments: &mut Arguments<'_>,
    item: &Item<'_>,
) -> Result<VoteSignature, u64>
    requires { IsInside item.now }
    ensures { result ≡ signatures.signed_by name arguments.old (seen_item item.now) }
{
    let identity = take_argument(arguments, item.place);
    let key = take_argument(arguments, item.place);
    let signer = field(&identity, fingerprint(identity.text))?;
    let digest = field(&key, key_digest(key.text))?;
    let signature = object_of(has_words(item, b"SIGNATURE"), item)?;
    Ok(VoteSignature {
        algorithm: name,
        identity: signer,
        key_digest: digest,
        signature,
    })
}

/// What a signature says, which a space has to stand before.
pub fn signature_of(item: &Item<'_>) -> Result<VoteSignature, u64>
    requires { IsInside item.now }
    ensures { result ≡ signatures.signature_of (seen_item item.now) }
{
    let Some(b' ') = item.separator else {
        return Err(item.place + item.keyword.len() as u64);
    };
    let first = take_argument(&mut arguments_of(item), item.place);
    let name = algorithm_if(&first)?;
    signed_by(name, &mut after_algorithm(name, item), item)
}

/// What one of several signatures says, and nothing by an algorithm that is not known.
pub fn known_signature_of(item: &Item<'_>) -> Result<Option<VoteSignature>, u64>
    requires { IsInside item.now }
    ensures { result ≡ signatures.known_signature_of (seen_item item.now) }
{
    let first = take_argument(&mut arguments_of(item), item.place);
    if first.text.is_empty() {
        return Err(item.place);
    }
    match algorithm_if(&first) {
        Ok(name) => Ok(Some(signed_by(name, &mut after_algorithm(name, item), item)?)),
        Err(_) => Ok(None),
    }
}

/// Nothing, where a space stands right after the keyword; else the place of the byte that stands there.
pub fn space_of(item: &Item<'_>) -> Result<(), u64>
    requires { IsInside item.now }
    ensures { result ≡ signatures.space_of (seen_item item.now) }
{
    match item.separator {
        Some(b' ') => Ok(()),
        _ => Err(item.place + item.keyword.len() as u64),
    }
}
