// What the line of an item says.
ghost use Rattle.std.specs.Prelude.{◌≡◌, IfOk};
ghost use Rattle.dirdoc_grammar.specs.Seen.{seen_item, IsInside};
ghost use Rattle.frame_values.specs.Lines as lines;

use crate::arguments::{arguments_of, take_argument};
use crate::fields::{any_text, day, field, fingerprint, ip, nickname, second_of_day, span};
use crate::found::{DirSource, Span};
use dir_bytes::Memory;
use dir_values::{Fingerprint, first_wrong_flag, number_of, port_of, wrong_number};
use dirdoc_grammar::Item;
use std::alloc::Global;

/// Where the arguments stand.
pub fn rest_of(item: &Item<'_>) -> Span
    requires { IsInside item.now }
    ensures { result ≡ lines.rest_of (seen_item item.now) }
{
    span(item.start, item.arguments)
}

/// Where the arguments stand, unless something is wrong at a place.
pub fn rest_unless(wrong: Option<u64>, item: &Item<'_>) -> Result<Span, u64>
    requires { IsInside item.now }
    ensures { result ≡ lines.rest_unless wrong (seen_item item.now) }
{
    match wrong {
        None => Ok(rest_of(item)),
        Some(place) => Err(place),
    }
}

/// This word.
pub fn literal(word: &[u8], item: &Item<'_>) -> Result<(), u64>
    requires { IsInside item.now }
    ensures { result ≡ lines.literal word.now (seen_item item.now) }
{
    let first = take_argument(&mut arguments_of(item), item.place);
    if first.text == word {
        Ok(())
    } else {
        Err(first.place)
    }
}

/// Numbers below 2 ^ 32, in any number.
pub fn numbers_of(item: &Item<'_>) -> Result<Span, u64>
    requires { IsInside item.now }
    ensures { result ≡ lines.numbers_of (seen_item item.now) }
{
    rest_unless(wrong_number(&mut arguments_of(item)), item)
}

/// Flags, in any number, none of them twice. Of flags that ascend it takes no memory.
///
/// # Errors
/// `Memory` is want of memory.
pub fn flags_of(alloc: Global, item: &Item<'_>) -> Result<Result<Span, u64>, Memory>
    requires { IsInside item.now }
    ensures { IfOk result (λ read. read ≡ lines.flags_of (seen_item item.now)) }
{
    let wrong = first_wrong_flag(alloc, item.start, item.arguments)?;
    Ok(rest_unless(wrong, item))
}

/// A date and a time of day: the seconds since 1970-01-01 00:00:00.
pub fn time_of(item: &Item<'_>) -> Result<u64, u64>
    requires { IsInside item.now }
    ensures { result ≡ lines.time_of (seen_item item.now) }
{
    let mut arguments = arguments_of(item);
    let first = take_argument(&mut arguments, item.place);
    let second = take_argument(&mut arguments, item.place);
    let days = field(&first, day(first.text))?;
    let seconds = field(&second, second_of_day(second.text))?;
    Ok(86400 * days as u64 + seconds as u64)
}

/// Two numbers of seconds.
pub fn delays_of(item: &Item<'_>) -> Result<(u32, u32), u64>
    requires { IsInside item.now }
    ensures { result ≡ lines.delays_of (seen_item item.now) }
{
    let mut arguments = arguments_of(item);
    let first = take_argument(&mut arguments, item.place);
    let second = take_argument(&mut arguments, item.place);
    let vote = field(&first, number_of(first.text))?;
    let distribution = field(&second, number_of(second.text))?;
    Ok((vote, distribution))
}

/// Who an authority is.
pub fn source_of(item: &Item<'_>) -> Result<DirSource, u64>
    requires { IsInside item.now }
    ensures { result ≡ lines.source_of (seen_item item.now) }
{
    let mut arguments = arguments_of(item);
    let name = take_argument(&mut arguments, item.place);
    let identity = take_argument(&mut arguments, item.place);
    let host = take_argument(&mut arguments, item.place);
    let address = take_argument(&mut arguments, item.place);
    let dir_port = take_argument(&mut arguments, item.place);
    let or_port = take_argument(&mut arguments, item.place);
    let nickname = field(&name, nickname(&name))?;
    let fingerprint = field(&identity, fingerprint(identity.text))?;
    let host_name = field(&host, any_text(&host))?;
    let number = field(&address, ip(address.text))?;
    let dir_number = field(&dir_port, port_of(dir_port.text))?;
    let or_number = field(&or_port, port_of(or_port.text))?;
    Ok(DirSource {
        nickname,
        identity: fingerprint,
        address: host_name,
        ip: number,
        dir_port: dir_number,
        or_port: or_number,
    })
}

/// Where the first argument stands, whatever it is.
pub fn argument_of(item: &Item<'_>) -> Result<Span, u64>
    requires { IsInside item.now }
    ensures { result ≡ lines.argument_of (seen_item item.now) }
{
    let first = take_argument(&mut arguments_of(item), item.place);
    field(&first, any_text(&first))
}

/// A fingerprint.
pub fn fingerprint_of(item: &Item<'_>) -> Result<Fingerprint, u64>
    requires { IsInside item.now }
    ensures { result ≡ lines.fingerprint_of (seen_item item.now) }
{
    let first = take_argument(&mut arguments_of(item), item.place);
    field(&first, fingerprint(first.text))
}
