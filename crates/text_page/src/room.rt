// Texts that are added to a vector which has room for them.
ghost use Rattle.std.specs.Prelude.{◌≡◌, ◌+◌, ◌∷◌, ◌++◌, ◌≤◌, length, vec_len, vec_capacity};
ghost use Rattle.dir_bytes.specs.{Causes.last_moment, FieldTexts.{moment_text, hex_text, base64_text}};
ghost use Rattle.item_terms.specs.Bytes.{space};

use dir_bytes::{push_base64, push_hex_upper, push_time};

/// Adds a text, for which there is room.
pub(crate) fn append(out: &mut Vec<u8>, text: &[u8])
    requires { vec_len out.old + length text.now ≤ vec_capacity out.old }
    ensures items { out.new.items ≡ out.old.items ++ text.now }
    ensures len { vec_len out.new ≡ vec_len out.old + length text.now }
    ensures capacity { vec_capacity out.old ≤ vec_capacity out.new }
{
    match out.extend_from_slice(text) {
        Ok(()) => {}
        Err(_) => unreachable!(),
    }
}

/// Adds a word behind a space, for which there is room.
pub(crate) fn append_word(out: &mut Vec<u8>, word: &[u8])
    requires { vec_len out.old + length (space ∷ word.now) ≤ vec_capacity out.old }
    ensures items { out.new.items ≡ out.old.items ++ space ∷ word.now }
    ensures len { vec_len out.new ≡ vec_len out.old + length (space ∷ word.now) }
    ensures capacity { vec_capacity out.old ≤ vec_capacity out.new }
{
    out.push_reserved(b' ');
    append(out, word);
}

/// Adds a moment, for which there is room.
#[tactic(auto, using(crate::proofs::Lengths::lengths))]
pub(crate) fn append_moment(out: &mut Vec<u8>, moment: u64)
    requires moment { moment ≤ last_moment }
    requires room { vec_len out.old + length (moment_text moment) ≤ vec_capacity out.old }
    ensures items { out.new.items ≡ out.old.items ++ moment_text moment }
    ensures len { vec_len out.new ≡ vec_len out.old + length (moment_text moment) }
    ensures capacity { vec_capacity out.old ≤ vec_capacity out.new }
{
    match push_time(out, moment) {
        Ok(()) => {}
        Err(_) => unreachable!(),
    }
}

/// Adds bytes in hex digits, for which there is room.
#[tactic(auto, using(crate::proofs::Lengths::lengths))]
pub(crate) fn append_hex(out: &mut Vec<u8>, bytes: &[u8])
    requires { vec_len out.old + length (hex_text bytes.now) ≤ vec_capacity out.old }
    ensures items { out.new.items ≡ out.old.items ++ hex_text bytes.now }
    ensures len { vec_len out.new ≡ vec_len out.old + length (hex_text bytes.now) }
    ensures capacity { vec_capacity out.old ≤ vec_capacity out.new }
{
    match push_hex_upper(out, bytes) {
        Ok(()) => {}
        Err(_) => unreachable!(),
    }
}

/// Adds bytes in base64, for which there is room.
#[tactic(auto, using(crate::proofs::Lengths::lengths))]
pub(crate) fn append_base64(out: &mut Vec<u8>, bytes: &[u8])
    requires { vec_len out.old + length (base64_text bytes.now) ≤ vec_capacity out.old }
    ensures items { out.new.items ≡ out.old.items ++ base64_text bytes.now }
    ensures len { vec_len out.new ≡ vec_len out.old + length (base64_text bytes.now) }
    ensures capacity { vec_capacity out.old ≤ vec_capacity out.new }
{
    match push_base64(out, bytes) {
        Ok(()) => {}
        Err(_) => unreachable!(),
    }
}
