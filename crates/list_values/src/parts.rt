// The parts of a text between commas, one after the other.
ghost use Rattle.std.specs.{Prelude.{◌≡◌, ◌+◌, ◌<◌, ◌≤◌, length, take, drop}, List.position_or_len};
ghost use Rattle.list_values.specs.Parts.{is_comma, parts_of};

use std::marker::Model;

/// The parts that are left of a text with commas between them. A contract sees them as the list of their texts.
#[derive(Drop)]
pub struct Parts<'a> {
    text: &'a [u8],
    ended: bool,
}

impl<'a> Model for Parts<'a> {
    ghost use Rattle.std.specs.Prelude.{ℕ, List};
    ghost use Rattle.list_values.specs.Parts.{parts_left};

    ghost Value = { List (List ℕ) };

    ghost view = { λ s. parts_left s.ended s.text.now };
}

impl<'a> Parts<'a> {
    ghost use Rattle.list_values.specs.Parts.{TakesPart};

    /// The parts of a text: one more than it has commas.
    pub fn of(text: &'a [u8]) -> Parts<'a>
        ensures { result ≡ parts_of text.now }
    {
        Parts { text, ended: false }
    }

    /// The next part, which may be empty.
    #[tactic(auto, using(crate::proofs::PartSteps::last_part, crate::proofs::PartSteps::first_part))]
    pub fn next(&mut self) -> Option<&'a [u8]>
        ensures { TakesPart self.old result self.new }
    {
        if self.ended {
            return None;
        }
        let text = self.text;
        let length = part_len(text);
        if length < text.len() {
            self.text = after(text, length);
            Some(before(text, length))
        } else {
            self.ended = true;
            Some(text)
        }
    }
}

/// How many bytes stand before the first comma; all, where there is none.
fn part_len(text: &[u8]) -> usize
    ensures place { result ≡ position_or_len is_comma text.now }
    ensures within { result ≤ length text.now }
{
    text.iter().take_while(|byte| **byte != b',').count()
}

/// What stands before a place.
fn before(text: &[u8], place: usize) -> &[u8]
    requires { place < length text.now }
    ensures { result.now ≡ take place text.now }
{
    &text[..place]
}

/// What stands after the byte at a place.
fn after(text: &[u8], place: usize) -> &[u8]
    requires { place < length text.now }
    ensures { result.now ≡ drop (place + 1) text.now }
{
    &text[place + 1..]
}
