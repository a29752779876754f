// The writer of a document's items.

ghost use Rattle.std.specs.Prelude.{◌≡◌, ◌≤◌, ◌++◌, ◌∷◌, [], length, take, true, false, OnErr, OnOk, vec_len};
ghost use Rattle.item_terms.specs.Words as line_words;
ghost use Rattle.dirdoc_grammar.specs.{Bodies.{base64_of, body_text, object_text}, Writing.{IsKeyword, IsLineRest}};
ghost use Rattle.dirdoc_grammar.specs.{Writing.tail, Writers.{longer_draft, ends_line, in_line, is_argument}};

use base64::encoded_len;
use base64::engine::general_purpose::STANDARD;
use std::alloc::AllocError;
use std::marker::Model;

/// The bytes that a line of base64 spells: 64 characters.
const LINE_BYTES: usize = 48;

/// What may be written next.
#[derive(Clone, Copy, Debug, PartialEq, Eq)]
pub enum Stage {
    /// A keyword, or nothing more.
    Between,
    /// More of the line whose keyword stands there, or its end.
    Begun,
    /// The end of the line, whose rest stands there.
    Rested,
    /// The object of the item whose line has ended, a keyword, or nothing more.
    Ended,
}

/// Writes the items of a document, one after the other. A contract sees a writer as its text so far
/// and what may be written next.
#[derive(Debug, Drop)]
pub struct Writer {
    text: Vec<u8>,
    stage: Stage,
}

impl Model for Writer {
    ghost use Rattle.dirdoc_grammar.specs.Writers.{Draft};

    ghost Value = { Draft };

    ghost view = { λ w. record { text = w.text.items; stage = w.stage } };
}

impl Writer {
    /// A writer that appends to a text, which is empty or ends with NL.
    pub fn new(out: Vec<u8>) -> Writer
        requires { ends_line out.items ≡ true }
        ensures { result ≡ record { text = out.items; stage = Stage.Between } }
    {
        Writer {
            text: out,
            stage: Stage::Between,
        }
    }

    /// Begins an item with its keyword. Without memory the writer stays as it was.
    pub fn begin(&mut self, keyword: &[u8]) -> Result<(), AllocError>
        requires stage { in_line self.old.stage ≡ false }
        requires keyword { IsKeyword keyword.now }
        ensures ok { OnOk result (self.new ≡ longer_draft self.old keyword.now Stage.Begun) }
        ensures err { OnErr result (self.new ≡ self.old) }
    {
        self.text.extend_from_slice(keyword)?;
        self.stage = Stage::Begun;
        Ok(())
    }

    /// Appends an argument to the line, behind a space. Without memory the writer stays as it was.
    pub fn argument(&mut self, bytes: &[u8]) -> Result<(), AllocError>
        requires stage { self.old.stage ≡ Stage.Begun }
        requires argument { is_argument bytes.now ≡ true }
        ensures ok { OnOk result (self.new ≡ longer_draft self.old (32 ∷ bytes.now) Stage.Begun) }
        ensures err { OnErr result (self.new ≡ self.old) }
    {
        push_behind_space(&mut self.text, bytes)
    }

    /// Appends the rest of the line, behind a space unless it is empty. Without memory the writer
    /// stays as it was.
    pub fn rest(&mut self, bytes: &[u8]) -> Result<(), AllocError>
        requires stage { self.old.stage ≡ Stage.Begun }
        requires rest { IsLineRest bytes.now }
        ensures ok { OnOk result (self.new ≡ longer_draft self.old (tail bytes.now) Stage.Rested) }
        ensures err { OnErr result (self.new ≡ self.old) }
    {
        if !bytes.is_empty() {
            push_behind_space(&mut self.text, bytes)?;
        }
        self.stage = Stage::Rested;
        Ok(())
    }

    /// Ends the line. Without memory the writer stays as it was.
    pub fn end(&mut self) -> Result<(), AllocError>
        requires { in_line self.old.stage ≡ true }
        ensures ok { OnOk result (self.new ≡ longer_draft self.old (10 ∷ []) Stage.Ended) }
        ensures err { OnErr result (self.new ≡ self.old) }
    {
        self.text.push(b'\n')?;
        self.stage = Stage::Ended;
        Ok(())
    }

    /// Appends the object of the item whose line has just ended. Without memory the writer stays as
    /// it was.
    pub fn object(&mut self, words: &[u8], bytes: &[u8]) -> Result<(), AllocError>
        requires stage { self.old.stage ≡ Stage.Ended }
        requires words { line_words.are_words true words.now ≡ true }
        ensures ok { OnOk result (self.new ≡ longer_draft self.old (object_text words.now bytes.now) Stage.Between) }
        ensures err { OnErr result (self.new ≡ self.old) }
    {
        let before = self.text.len();
        match push_object(&mut self.text, words, bytes) {
            Ok(()) => {
                self.stage = Stage::Between;
                Ok(())
            }
            Err(refused) => {
                self.text.truncate(before);
                Err(refused)
            }
        }
    }

    /// The text, with each line ended.
    pub fn finish(self) -> Vec<u8>
        requires { in_line self.stage ≡ false }
        ensures { result.items ≡ self.text }
    {
        self.text
    }
}

/// Appends a text behind a space, or leaves the vector as it was.
fn push_behind_space(out: &mut Vec<u8>, text: &[u8]) -> Result<(), AllocError>
    ensures ok { OnOk result (out.new.items ≡ out.old.items ++ 32 ∷ text.now) }
    ensures err { OnErr result (out.new.items ≡ out.old.items) }
{
    let before = out.len();
    out.push(b' ')?;
    match out.extend_from_slice(text) {
        Ok(()) => Ok(()),
        Err(refused) => {
            out.truncate(before);
            Err(refused)
        }
    }
}

/// Appends a line of base64. Without memory a part of it may stand there.
#[tactic(auto, unfolding(crate::specs::Bodies::base64_of))]
fn push_base64_line(out: &mut Vec<u8>, bytes: &[u8]) -> Result<(), AllocError>
    requires { length bytes.now ≤ 48 }
    ensures ok { OnOk result (out.new.items ≡ out.old.items ++ base64_of bytes.now ++ 10 ∷ []) }
    ensures err { OnErr result (take (vec_len out.old) out.new.items ≡ out.old.items) }
{
    let mut text = [0u8; 64];
    match STANDARD.encode_slice(bytes, &mut text) {
        Ok(count) => out.extend_from_slice(&text[..count])?,
        Err(_) => unreachable!(),
    }
    out.push(b'\n')?;
    Ok(())
}

/// Appends the lines of an object. Without memory a part of them may stand there.
fn push_body(out: &mut Vec<u8>, bytes: &[u8]) -> Result<(), AllocError>
    ensures ok { OnOk result (out.new.items ≡ out.old.items ++ body_text bytes.now) }
    ensures err { OnErr result (take (vec_len out.old) out.new.items ≡ out.old.items) }
{
    let mut rest = bytes;
    'lines: while !rest.is_empty() {
        let (line, others) = rest.split_at(rest.len().min(LINE_BYTES));
        push_base64_line(out, line)?;
        rest = others;
    }
    Ok(())
}

/// Appends a line of a front, words and five dashes. Without memory a part of it may stand there.
fn push_dashed(out: &mut Vec<u8>, front: &[u8], words: &[u8]) -> Result<(), AllocError>
    ensures ok { OnOk result (out.new.items ≡ out.old.items ++ (front.now ++ words.now ++ line_words.dashes) ++ 10 ∷ []) }
    ensures err { OnErr result (take (vec_len out.old) out.new.items ≡ out.old.items) }
{
    out.extend_from_slice(front)?;
    out.extend_from_slice(words)?;
    out.extend_from_slice(b"-----\n")?;
    Ok(())
}

/// How many bytes an object has, if that is a `usize`; else a number that is too great for memory.
fn object_size(words: &[u8], bytes: &[u8]) -> usize {
    let body = encoded_len(bytes.len(), true).unwrap_or(usize::MAX);
    let lines = bytes.len().div_ceil(LINE_BYTES);
    words
        .len()
        .saturating_mul(2)
        .saturating_add(32)
        .saturating_add(body)
        .saturating_add(lines)
}

/// Appends a keyword line of this keyword and rest, with a space between them unless the rest is
/// empty. Without memory a part of it may stand there.
pub fn push_line(out: &mut Vec<u8>, keyword: &[u8], rest: &[u8]) -> Result<(), AllocError>
    ensures ok { OnOk result (out.new.items ≡ out.old.items ++ (keyword.now ++ tail rest.now) ++ 10 ∷ []) }
    ensures err { OnErr result (take (vec_len out.old) out.new.items ≡ out.old.items) }
{
    out.extend_from_slice(keyword)?;
    if !rest.is_empty() {
        push_behind_space(out, rest)?;
    }
    out.push(b'\n')?;
    Ok(())
}

/// Appends an object of these words and bytes. Without memory a part of it may stand there.
pub fn push_object(out: &mut Vec<u8>, words: &[u8], bytes: &[u8]) -> Result<(), AllocError>
    ensures ok { OnOk result (out.new.items ≡ out.old.items ++ object_text words.now bytes.now) }
    ensures err { OnErr result (take (vec_len out.old) out.new.items ≡ out.old.items) }
{
    out.reserve(object_size(words, bytes))?;
    push_dashed(out, b"-----BEGIN ", words)?;
    push_body(out, bytes)?;
    push_dashed(out, b"-----END ", words)
}
