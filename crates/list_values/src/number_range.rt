// Ranges of numbers from 0 to 63.
ghost use Rattle.std.specs.Prelude.{◌≡◌, ◌<◌, ◌≤◌, IfSome};
ghost use Rattle.list_values.specs.Protocols as protocols;

use crate::spelled::Spelled;
use dir_values::{after, before, has, number_of};
use text_page::Page;

/// The numbers from a low to a high one. Its text is `low-high`, or the number where it is one.
#[derive(Clone, Copy, Debug, PartialEq, Eq)]
pub(crate) struct NumberRange {
    pub(crate) low: u8,
    pub(crate) high: u8,
}

impl Spelled for NumberRange {
    ghost use Rattle.list_values.specs.NumberSets.{range_text};

    ghost text = { range_text };

    #[tactic(auto, using(text_page::proofs::Pages::pages), unfolding(crate::specs::NumberSets::range_text))]
    fn put(&self, page: &mut Page) {
        page.put_number(self.low as u64);
        if self.low != self.high {
            page.put(b"-");
            page.put_number(self.high as u64);
        }
    }
}

/// The number from 0 to 63 that a text spells.
#[tactic(auto, unfolding(crate::specs::Protocols::listed_number))]
fn listed_number(text: &[u8]) -> Option<u8>
    ensures value { result ≡ protocols.listed_number text.now }
    ensures small { IfSome result (λ number. number < 64) }
{
    match number_of(text) {
        Some(number) if number <= 63 => Some(number as u8),
        _ => None,
    }
}

/// The range from a number to another one, which does not come before it.
fn range_between(low: Option<u8>, high: Option<u8>) -> Option<NumberRange>
    requires { IfSome high (λ number. number < 64) }
    ensures value { result ≡ protocols.range_between low high }
    ensures order { IfSome result (λ range. range.low ≤ range.high) }
    ensures small { IfSome result (λ range. range.high < 64) }
{
    match (low, high) {
        (Some(low), Some(high)) if low <= high => Some(NumberRange { low, high }),
        _ => None,
    }
}

/// The range that `low-high` or one number spells.
#[tactic(auto, unfolding(crate::specs::Protocols::range_of))]
pub(crate) fn range_of(text: &[u8]) -> Option<NumberRange>
    ensures value { result ≡ protocols.range_of text.now }
    ensures order { IfSome result (λ range. range.low ≤ range.high) }
    ensures small { IfSome result (λ range. range.high < 64) }
{
    if has(text, b'-') {
        range_between(
            listed_number(before(text, b'-')),
            listed_number(after(text, b'-')),
        )
    } else {
        range_between(listed_number(text), listed_number(text))
    }
}
