// A shared random value.
ghost use Rattle.std.specs.Prelude.{◌≡◌, ◌++◌, OnOk, OnErr, take, vec_len};
ghost use Rattle.dir_values.specs.Digests.{digest2};
ghost use Rattle.value_groups.specs.Values as values;

use dir_bytes::{Memory, push_base64, push_decimal};
use dir_values::Digest2;

/// A shared random value (dir-spec, "Vote and consensus status document formats").
#[derive(Clone, Copy, Debug)]
pub struct SharedRandom {
    /// How many authorities revealed what it is made of.
    pub count: u32,
    /// The value, of 32 bytes.
    pub value: Digest2,
}

/// The text without the one `=` that fills its 43 characters up to 44.
fn without_padding(text: &[u8]) -> &[u8]
    ensures { result.now ≡ values.without_padding text.now }
{
    if text.len() == 44 && text[43] == b'=' {
        let (bare, _) = text.split_at(43);
        bare
    } else {
        text
    }
}

/// The 32 bytes that 43 characters of base64 spell, or these and the one `=` that fills them up to 44.
pub fn padded_digest(text: &[u8]) -> Option<Digest2>
    ensures { result ≡ values.padded_digest text.now }
{
    Digest2::read(without_padding(text)).ok()
}

impl SharedRandom {
    ghost use Rattle.value_groups.specs.Values as values;

    /// Whether both are one value, with one count.
    pub fn is_same(&self, other: &SharedRandom) -> bool
        ensures { result ≡ values.same_random self.now other.now }
    {
        self.count == other.count && self.value.0 == other.value.0
    }

    /// Appends the text: the count, and the value in 44 characters. Without memory what stood in `out` stays in front.
    pub fn push(&self, out: &mut Vec<u8>) -> Result<(), Memory>
        ensures ok { OnOk result (out.new.items ≡ out.old.items ++ values.random_text self.now) }
        ensures err { OnErr result (take (vec_len out.old) out.new.items ≡ out.old.items) }
    {
        push_decimal(out, self.count as u64)?;
        out.push(b' ')?;
        push_base64(out, &self.value.0)?;
        out.push(b'=')?;
        Ok(())
    }
}
