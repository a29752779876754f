// What the lines of a consensus say that a vote has not, or has otherwise.
ghost use Rattle.std.specs.Prelude.{◌≡◌};
ghost use Rattle.dir_values.specs.Taking.{argument_of};
ghost use Rattle.dirdoc_grammar.specs.Seen.{seen_item, IsInside};
ghost use Rattle.consensus_frame.specs.Lines as lines;

use consensus_terms::{Bandwidth, Flavour};
use dir_values::{Argument, Arguments, Digest1, Digest2, number_of, port_of};
use dirdoc_grammar::Item;
use frame_values::{
    arguments_of, day, field, ip, key_digest, nickname, second_of_day, take_argument,
};
use relay_entries::{Bandwidths, RelayLine, identity, with_argument};

/// This word, as one argument.
fn word_here(word: &[u8], argument: &Argument<'_>) -> Result<(), u64>
    ensures { result ≡ lines.word_here word.now (argument_of argument.now) }
{
    if argument.text == word {
        Ok(())
    } else {
        Err(argument.place)
    }
}

/// The flavour that arguments name: none is named for ns.
fn flavour_here(flavour: Flavour, item: u64, arguments: &mut Arguments<'_>) -> Result<(), u64>
    ensures { result ≡ lines.flavour_here flavour item arguments.old }
{
    match flavour {
        Flavour::Ns => match arguments.next() {
            None => Ok(()),
            Some(argument) => Err(argument.place),
        },
        Flavour::Microdesc => word_here(b"microdesc", &take_argument(arguments, item)),
    }
}

/// The version of a consensus of a flavour.
pub fn version_of(flavour: Flavour, item: &Item<'_>) -> Result<(), u64>
    requires { IsInside item.now }
    ensures { result ≡ lines.version_of flavour (seen_item item.now) }
{
    let mut arguments = arguments_of(item);
    let first = take_argument(&mut arguments, item.place);
    word_here(b"3", &first)?;
    flavour_here(flavour, item.place, &mut arguments)
}

/// A number below 2 ^ 32.
pub fn method_of(item: &Item<'_>) -> Result<u64, u64>
    requires { IsInside item.now }
    ensures { result ≡ lines.method_of (seen_item item.now) }
{
    let first = take_argument(&mut arguments_of(item), item.place);
    Ok(field(&first, number_of(first.text))? as u64)
}

/// A digest in hex.
pub fn vote_digest_of(item: &Item<'_>) -> Result<Digest1, u64>
    requires { IsInside item.now }
    ensures { result ≡ lines.vote_digest_of (seen_item item.now) }
{
    let first = take_argument(&mut arguments_of(item), item.place);
    field(&first, key_digest(first.text))
}

/// The SHA-1 digest that 27 characters of base64 spell.
fn digest1(text: &[u8]) -> Option<Digest1>
    ensures { result ≡ lines.digest1 text.now }
{
    Digest1::read(text).ok()
}

/// The SHA-256 digest that 43 characters of base64 spell.
fn digest2(text: &[u8]) -> Option<Digest2>
    ensures { result ≡ lines.digest2 text.now }
{
    Digest2::read(text).ok()
}

/// The digest of a microdescriptor.
pub fn micro_digest_of(item: &Item<'_>) -> Result<Digest2, u64>
    requires { IsInside item.now }
    ensures { result ≡ lines.micro_digest_of (seen_item item.now) }
{
    let first = take_argument(&mut arguments_of(item), item.place);
    field(&first, digest2(first.text))
}

/// The digest of the descriptor, which the ns flavour alone has.
fn take_digest(flavour: Flavour, arguments: &mut Arguments<'_>, item: u64) -> Result<Digest1, u64>
    ensures value { result ≡ lines.digest_here flavour item arguments.old }
    ensures others { arguments.new ≡ lines.after_digest flavour arguments.old }
{
    match flavour {
        Flavour::Ns => {
            let argument = take_argument(arguments, item);
            field(&argument, digest1(argument.text))
        }
        Flavour::Microdesc => Ok(Digest1([0; 20])),
    }
}

/// Who a relay is and where.
pub fn relay_of(flavour: Flavour, item: &Item<'_>) -> Result<RelayLine, u64>
    requires { IsInside item.now }
    ensures { result ≡ lines.relay_of flavour (seen_item item.now) }
{
    let mut arguments = arguments_of(item);
    let name = take_argument(&mut arguments, item.place);
    let identity_text = take_argument(&mut arguments, item.place);
    let digest = take_digest(flavour, &mut arguments, item.place);
    let date_text = take_argument(&mut arguments, item.place);
    let time_text = take_argument(&mut arguments, item.place);
    let ip_text = take_argument(&mut arguments, item.place);
    let or_port = take_argument(&mut arguments, item.place);
    let dir_port = take_argument(&mut arguments, item.place);
    let nickname = field(&name, nickname(&name))?;
    let fingerprint = field(&identity_text, identity(identity_text.text))?;
    let digest = digest?;
    let days = field(&date_text, day(date_text.text))?;
    let seconds = field(&time_text, second_of_day(time_text.text))?;
    let number = field(&ip_text, ip(ip_text.text))?;
    let or_number = field(&or_port, port_of(or_port.text))?;
    let dir_number = field(&dir_port, port_of(dir_port.text))?;
    Ok(RelayLine {
        nickname,
        identity: fingerprint,
        digest,
        published: 86400 * days as u64 + seconds as u64,
        ip: number,
        or_port: or_number,
        dir_port: dir_number,
    })
}

/// What the arguments of a `w` line say.
#[derive(Clone, Copy, Debug)]
pub struct Said {
    /// The numbers that a vote has too.
    pub bandwidths: Bandwidths,
    /// Whether it says `Unmeasured=1`.
    pub unmeasured: bool,
}

/// What is said with one more argument, if it may stand.
fn with_word(said: Said, text: &[u8]) -> Option<Said>
    ensures { result ≡ lines.with_word said text.now }
{
    if let Some(value) = text.strip_prefix(b"Unmeasured=") {
        if said.unmeasured || value != b"1".as_slice() {
            return None;
        }
        return Some(Said {
            bandwidths: said.bandwidths,
            unmeasured: true,
        });
    }
    match with_argument(said.bandwidths, text) {
        Some(bandwidths) => Some(Said {
            bandwidths,
            unmeasured: said.unmeasured,
        }),
        None => None,
    }
}

/// What the arguments that are left say.
#[tactic(auto, unfolding(crate::specs::Lines::with_words))]
fn with_words(arguments: &mut Arguments<'_>) -> Result<Said, u64>
    ensures { result ≡ lines.with_words lines.nothing_said arguments.old }
{
    let mut said = Said {
        bandwidths: Bandwidths {
            bandwidth: None,
            measured: None,
        },
        unmeasured: false,
    };
    'arguments: while let Some(argument) = arguments.next() {
        said = field(&argument, with_word(said, argument.text))?;
    }
    Ok(said)
}

/// The bandwidth of a relay.
pub fn bandwidth_of(item: &Item<'_>) -> Result<Bandwidth, u64>
    requires { IsInside item.now }
    ensures { result ≡ lines.bandwidth_of (seen_item item.now) }
{
    let said = with_words(&mut arguments_of(item))?;
    match said.bandwidths.bandwidth {
        Some(value) => Ok(Bandwidth {
            value,
            unmeasured: said.unmeasured,
        }),
        None => Err(item.place),
    }
}
