// An item of a document and its object, borrowed from the document's bytes.

ghost use Rattle.std.specs.Prelude.{◌≡◌, IfOk, Ok, Some, option_map, true};
ghost use Rattle.item_terms.specs.Base64Text.{is_base64, is_body, joined_text};
ghost use Rattle.item_terms.specs.Words as line_words;
ghost use Rattle.base64.specs.{Engines.standard, GeneralPurpose.decode_of};
ghost use Rattle.dirdoc_grammar.specs.Bodies.{decoded_bytes};

use crate::bytes::first_word;
use base64::DecodeAllocError;
use base64::engine::general_purpose::STANDARD;
use memchr::memchr;
use std::alloc::{AllocError, Global};

/// An object: a block of base64 between a BEGIN and an END line (dir-spec, meta-format).
#[derive(Clone, Copy, Debug)]
pub struct ObjectText<'a> {
    /// The words of the BEGIN line, as in `RSA PUBLIC KEY`.
    pub words: &'a [u8],
    /// The place of the first byte after the BEGIN line.
    pub start: u64,
    /// What stands between the BEGIN and the END line, each line with its NL.
    pub lines: &'a [u8],
    pub ghost strict: { is_body lines.now ≡ true },
}

impl ObjectText<'_> {
    /// The bytes that the lines spell. Fails only for want of memory.
    #[tactic(auto, unfolding(crate::specs::Bodies::decoded_bytes))]
    pub fn decode(&self, alloc: Global) -> Result<Vec<u8>, AllocError>
        ensures { IfOk result (λ bytes. decoded_bytes self.now.lines.now ≡ Some bytes.items) }
    {
        let text = joined_lines(alloc, self.lines)?;
        decode_strict(alloc, &text)
    }
}

/// The lines without their NLs. Fails only for want of memory.
fn joined_lines(alloc: Global, lines: &[u8]) -> Result<Vec<u8>, AllocError>
    ensures { IfOk result (λ text. text.items ≡ joined_text lines.now) }
{
    let mut text = Vec::with_capacity(alloc, lines.len())?;
    let mut rest = lines;
    'lines: while let Some(len) = memchr(b'\n', rest) {
        text.extend_from_slice(&rest[..len])?;
        rest = &rest[len + 1..];
    }
    text.extend_from_slice(rest)?;
    Ok(text)
}

fn decode_strict(alloc: Global, text: &[u8]) -> Result<Vec<u8>, AllocError>
    requires { is_base64 text.now ≡ true }
    ensures { IfOk result (λ bytes. decode_of standard text.now ≡ Ok bytes.items) }
{
    match STANDARD.decode(alloc, text) {
        Ok(bytes) => Ok(bytes),
        Err(DecodeAllocError::OutOfMemory) => Err(AllocError),
        Err(DecodeAllocError::DecodeError(_)) => unreachable!(),
    }
}

/// The bytes that the lines of an object spell, or nothing where they are no strict base64. Fails
/// only for want of memory.
#[tactic(auto, unfolding(crate::specs::Bodies::decoded_bytes))]
pub fn decode_lines(alloc: Global, lines: &[u8]) -> Result<Option<Vec<u8>>, AllocError>
    ensures { IfOk result (λ found. option_map (λ bytes. bytes.items) found ≡ decoded_bytes lines.now) }
{
    let text = joined_lines(alloc, lines)?;
    match STANDARD.decode(alloc, &text) {
        Ok(bytes) => Ok(Some(bytes)),
        Err(DecodeAllocError::OutOfMemory) => Err(AllocError),
        Err(DecodeAllocError::DecodeError(_)) => Ok(None),
    }
}

/// An item: a keyword line, and the object that begins on the next line if one does (dir-spec,
/// meta-format). Places are in bytes, from the first byte of the input.
#[derive(Clone, Copy, Debug)]
pub struct Item<'a> {
    /// The keyword.
    pub keyword: &'a [u8],
    /// The byte right after the keyword, a space or a tab; None where the line ends there.
    pub separator: Option<u8>,
    /// The arguments: the rest of the line without its outer blanks.
    pub arguments: &'a [u8],
    /// The place of the arguments' first byte; with no argument, that of the line's end.
    pub start: u64,
    /// The place after the keyword line.
    pub line_end: u64,
    /// The object, if there is one.
    pub object: Option<ObjectText<'a>>,
    /// The place of the item's first byte.
    pub place: u64,
    /// The place after the item's last line.
    pub after: u64,
}

impl<'a> Item<'a> {
    /// The argument with the index `n`, from 0; None where there are no more than `n`. Runs of
    /// blanks separate arguments.
    pub fn argument(&self, n: usize) -> Option<&'a [u8]>
        ensures { option_map (λ word. word.now) result ≡ line_words.argument n self.now.arguments.now }
    {
        let mut rest = self.arguments;
        let mut left = n;
        'words: while let Some((word, after)) = first_word(rest) {
            if left == 0 {
                return Some(word);
            }
            left -= 1;
            rest = after;
        }
        None
    }
}
