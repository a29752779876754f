// The extensions of a certificate.
ghost use Rattle.std.specs.Prelude.{◌≡◌, ◌+◌, ◌≤◌, IfSome, None, length, drop};
ghost use Rattle.descriptor_frame.specs.Certificates as certificates;

/// How many bytes the content of the first extension has.
fn content_len(bytes: &[u8]) -> usize
    requires { 2 ≤ length bytes.now }
    ensures value { result ≡ certificates.content_len bytes.now }
    ensures small { result ≤ 65535 }
{
    256 * bytes[0] as usize + bytes[1] as usize
}

/// The signer once an extension was read, or None where there must not be such an extension.
fn signer_after(
    kind: u8,
    flags: u8,
    content: &[u8],
    signer: Option<[u8; 32]>,
) -> Option<Option<[u8; 32]>>
    ensures { result ≡ certificates.signer_after kind flags content.now signer }
{
    if kind != 4 {
        return if flags % 2 == 1 { None } else { Some(signer) };
    }
    if signer.is_some() || content.len() != 32 {
        return None;
    }
    let mut bytes = [0u8; 32];
    bytes.copy_from_slice(content);
    Some(Some(bytes))
}

/// What the first extension makes of the signer, if the bytes hold it whole.
fn first_extension(signer: Option<[u8; 32]>, bytes: &[u8]) -> Option<Option<[u8; 32]>>
    ensures value { result ≡ certificates.first_extension signer bytes.now }
    ensures within { IfSome result (λ next. 4 + certificates.content_len bytes.now ≤ length bytes.now) }
{
    if bytes.len() < 4 || bytes.len() < 4 + content_len(bytes) {
        return None;
    }
    let end = 4 + content_len(bytes);
    signer_after(bytes[2], bytes[3], &bytes[4..end], signer)
}

/// The bytes behind the first extension.
fn behind_first(bytes: &[u8]) -> &[u8]
    requires { 4 + certificates.content_len bytes.now ≤ length bytes.now }
    ensures { result.now ≡ drop (4 + certificates.content_len bytes.now) bytes.now }
{
    &bytes[4 + content_len(bytes)..]
}

/// The signer that so many extensions hold which fill the bytes.
pub(crate) fn signer_in(count: u8, bytes: &[u8]) -> Option<[u8; 32]>
    ensures { result ≡ certificates.signer_in count None bytes.now }
{
    let mut signer = None;
    let mut rest = bytes;
    for i in 0..count {
        match first_extension(signer, rest) {
            Some(next) => signer = next,
            None => return None,
        }
        rest = behind_first(rest);
    }
    if rest.is_empty() { signer } else { None }
}
