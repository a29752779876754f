// What the items of a section say. Where an item is not there, or says something else, its value is nothing.
ghost use Rattle.std.specs.Prelude.{◌≡◌};
ghost use Rattle.frame_values.specs.Values as values;

use crate::found::Span;
use dir_values::Fingerprint;
use frame_terms::{Keyword, Taken};

/// What an item says, where V is what items of its kind of document say beside what those of several do.
#[derive(Clone, Copy, Debug)]
pub enum Value<V> {
    /// No more than that it stands.
    Nothing,
    /// A text, or the arguments as they stand.
    Text(Span),
    /// A time, in seconds from 1970-01-01 00:00:00.
    Number(u64),
    /// A fingerprint.
    Fingerprint(Fingerprint),
    /// The lines of an object, without its first and last.
    Object(Span),
    /// What only items of its kind of document say.
    Own(V),
}

/// The first item of a keyword.
pub fn item_at<V: Copy>(taken: &[Taken<V>], keyword: Keyword) -> Option<Taken<V>>
    ensures { result ≡ values.item_at taken.now keyword }
{
    taken.iter().copied().find(|one| one.keyword.same(keyword))
}

/// Where the first item of a keyword begins, and 0 of none.
pub fn place_at<V: Copy>(taken: &[Taken<V>], keyword: Keyword) -> u64
    ensures { result ≡ values.place_in (values.item_at taken.now keyword) }
{
    match item_at(taken, keyword) {
        Some(one) => one.place,
        None => 0,
    }
}

/// Where the keyword of the first item of a keyword ends, and 0 of none.
pub fn separator_at<V: Copy>(taken: &[Taken<V>], keyword: Keyword) -> u64
    ensures { result ≡ values.separator_in (values.item_at taken.now keyword) }
{
    match item_at(taken, keyword) {
        Some(one) => one.separator,
        None => 0,
    }
}

/// Where the line of the first item of a keyword ends, and 0 of none.
pub fn line_end_at<V: Copy>(taken: &[Taken<V>], keyword: Keyword) -> u64
    ensures { result ≡ values.line_end_in (values.item_at taken.now keyword) }
{
    match item_at(taken, keyword) {
        Some(one) => one.line_end,
        None => 0,
    }
}

/// Where the first item of a keyword ends, and 0 of none.
pub fn after_at<V: Copy>(taken: &[Taken<V>], keyword: Keyword) -> u64
    ensures { result ≡ values.after_in (values.item_at taken.now keyword) }
{
    match item_at(taken, keyword) {
        Some(one) => one.after,
        None => 0,
    }
}

/// What the first item of a keyword says, and nothing of none.
pub fn value_at<V: Copy>(taken: &[Taken<Value<V>>], keyword: Keyword) -> Value<V>
    ensures { result ≡ values.value_if (values.item_at taken.now keyword) }
{
    match item_at(taken, keyword) {
        Some(one) => one.value,
        None => Value::Nothing,
    }
}

/// What only items of a kind of document say, as the first item of a keyword does.
pub fn own_at<V: Copy>(taken: &[Taken<Value<V>>], keyword: Keyword) -> Option<V>
    ensures { result ≡ values.own_in (values.item_at taken.now keyword) }
{
    match value_at(taken, keyword) {
        Value::Own(value) => Some(value),
        _ => None,
    }
}

/// The number that the first item of a keyword says, and 0 of none.
pub fn number_at<V: Copy>(taken: &[Taken<Value<V>>], keyword: Keyword) -> u64
    ensures { result ≡ values.number_in (values.item_at taken.now keyword) }
{
    match value_at(taken, keyword) {
        Value::Number(number) => number,
        _ => 0,
    }
}

/// Where the text of the first item of a keyword stands, if there is one.
pub fn text_if<V: Copy>(taken: &[Taken<Value<V>>], keyword: Keyword) -> Option<Span>
    ensures { result ≡ values.text_if (values.item_at taken.now keyword) }
{
    match value_at(taken, keyword) {
        Value::Text(span) => Some(span),
        _ => None,
    }
}

/// The span of no text.
pub fn nowhere() -> Span
    ensures { result ≡ values.nowhere }
{
    Span { start: 0, end: 0 }
}

/// Where the text of the first item of a keyword stands.
pub fn text_at<V: Copy>(taken: &[Taken<Value<V>>], keyword: Keyword) -> Span
    ensures { result ≡ values.text_in (values.text_if (values.item_at taken.now keyword)) }
{
    match text_if(taken, keyword) {
        Some(span) => span,
        None => nowhere(),
    }
}

/// Where the lines of the object of the first item of a keyword stand.
pub fn object_at<V: Copy>(taken: &[Taken<Value<V>>], keyword: Keyword) -> Span
    ensures { result ≡ values.object_in (values.item_at taken.now keyword) }
{
    match value_at(taken, keyword) {
        Value::Object(lines) => lines,
        _ => nowhere(),
    }
}

/// The identity of nobody.
pub fn no_identity() -> Fingerprint
    ensures { result ≡ values.no_identity }
{
    Fingerprint([0; 20])
}

/// The identity that the first item of a keyword says.
pub fn fingerprint_at<V: Copy>(taken: &[Taken<Value<V>>], keyword: Keyword) -> Fingerprint
    ensures { result ≡ values.fingerprint_in (values.item_at taken.now keyword) }
{
    match value_at(taken, keyword) {
        Value::Fingerprint(identity) => identity,
        _ => no_identity(),
    }
}
