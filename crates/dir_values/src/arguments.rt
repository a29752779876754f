// The arguments of a text, one after the other.
ghost use Rattle.std.specs.Prelude.{◌≡◌, ◌+◌, ◌<◌, ◌^◌, ◌≤◌, IfSome, length};
ghost use Rattle.dir_values.specs.Arguments as arguments;
ghost use Rattle.dir_values.specs.Arguments.{ArgumentsAreWords};
ghost use Rattle.dir_values.specs.Lending as lending;
ghost use Rattle.item_terms.specs.Words as words;

use memchr::memchr2;
use std::marker::Model;

/// An argument, and the place of its first byte.
#[derive(Clone, Copy, Debug)]
pub struct Argument<'a> {
    pub place: u64,
    pub text: &'a [u8],
}

/// The arguments that are left of a text. A contract sees them as the list of them.
#[derive(Drop)]
pub struct Arguments<'a> {
    place: u64,
    text: &'a [u8],
}

impl<'a> Model for Arguments<'a> {
    ghost use Rattle.std.specs.Prelude.{List, length, ◌+◌, ◌<◌, ◌^◌};
    ghost use Rattle.dir_values.specs.Arguments.{Argument, arguments_at};

    ghost Value = { List Argument };

    ghost view = { λ s. arguments_at s.place s.text.now };

    ghost invariant = { λ s. s.place + length s.text.now < 2 ^ 64 };
}

impl<'a> Arguments<'a> {
    ghost use Rattle.dir_values.specs.Taking.{TakesArgument};

    /// The arguments of a text that begins at this place.
    pub fn at(place: u64, text: &'a [u8]) -> Arguments<'a>
        requires { place + length text.now < 2 ^ 64 }
        ensures { result ≡ arguments.arguments_at place text.now }
    {
        Arguments { place, text }
    }

    /// The next argument.
    pub fn next(&mut self) -> Option<Argument<'a>>
        ensures taken { TakesArgument self.old result self.new }
        ensures inside { IfSome result (λ argument. argument.place + length argument.text.now < 2 ^ 64) }
    {
        let (passed, text) = self.text.split_at(blanks(self.text));
        let place = self.place + passed.len() as u64;
        let (word, rest) = text.split_at(word_len(text));
        self.place = place + word.len() as u64;
        self.text = rest;
        if word.is_empty() {
            return None;
        }
        Some(Argument { place, text: word })
    }
}

/// Whether a byte is a blank: a space or a tab.
fn is_blank(byte: u8) -> bool
    ensures { result ≡ words.is_blank byte }
{
    byte == b' ' || byte == b'\t'
}

/// How many blanks stand in front.
fn blanks(text: &[u8]) -> usize
    ensures count { result ≡ lending.blanks text.now }
    ensures within { result ≤ length text.now }
{
    text.iter().take_while(|byte| is_blank(**byte)).count()
}

/// How many bytes stand in front of the first blank.
fn word_len(text: &[u8]) -> usize
    ensures count { result ≡ lending.word_len text.now }
    ensures within { result ≤ length text.now }
{
    match memchr2(b' ', b'\t', text) {
        Some(count) => count,
        None => text.len(),
    }
}

/// A law: the arguments of a text are its words, with their places.
pub fn arguments_are_words()
    ensures { ArgumentsAreWords }
{}
