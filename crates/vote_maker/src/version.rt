// The version of Tor that a platform names.
ghost use Rattle.std.specs.Prelude.{◌≡◌, ◌∷◌, ◌++◌, IfOk, option_and_then};
ghost use Rattle.item_terms.specs.Bytes.{space};
ghost use Rattle.vote_maker.specs.Entries as entries;

use dir_bytes::{Memory, Text};
use dir_values::Arguments;
use std::alloc::Global;

/// Two words with a space between them.
///
/// # Errors
/// `Memory` is want of memory.
fn two_words(alloc: Global, first: &[u8], second: &[u8]) -> Result<Text, Memory>
    ensures { IfOk result (λ text. text ≡ first.now ++ space ∷ second.now) }
{
    let mut text = Vec::with_capacity(alloc, first.len() + second.len() + 1)?;
    text.extend_from_slice(first)?;
    text.push(b' ')?;
    text.extend_from_slice(second)?;
    Ok(Text::new(text))
}

/// The version that a platform names: its first two words, where the first is `Tor`.
///
/// # Errors
/// `Memory` is want of memory.
fn version_of_platform(alloc: Global, platform: &[u8]) -> Result<Option<Text>, Memory>
    ensures { IfOk result (λ version. version ≡ entries.version_of_platform platform.now) }
{
    let mut words = Arguments::at(0, platform);
    let Some(name) = words.next() else {
        return Ok(None);
    };
    let Some(number) = words.next() else {
        return Ok(None);
    };
    if name.text == b"Tor".as_slice() {
        Ok(Some(two_words(alloc, name.text, number.text)?))
    } else {
        Ok(None)
    }
}

/// The version that a platform names, where there is a platform (dir-spec, the `v` line).
///
/// # Errors
/// `Memory` is want of memory.
pub(crate) fn version_of(alloc: Global, platform: &Option<Text>) -> Result<Option<Text>, Memory>
    ensures { IfOk result (λ version. version ≡ option_and_then entries.version_of_platform platform.now) }
{
    match platform {
        Some(platform) => version_of_platform(alloc, platform.as_bytes()),
        None => Ok(None),
    }
}
