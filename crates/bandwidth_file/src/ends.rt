// Where the line stands that ends a bandwidth file.
ghost use Rattle.std.specs.Prelude.{◌≡◌, ◌+◌, ◌≤◌, length, IfSome};
ghost use Rattle.bandwidth_file.specs.Fronts as fronts;

use memchr::memchr;

/// How many bytes the line has that ends a bandwidth file in front of other input, with its NL.
pub const END_SIZE: usize = 19;

/// Where the first line begins that ends a bandwidth file, if there is one.
pub fn end_place(bytes: &[u8]) -> Option<usize>
    ensures place { result ≡ fronts.end_place bytes.now }
    ensures within { IfSome result (λ place. place + fronts.end_size ≤ length bytes.now) }
{
    let mut place = 0usize;
    'lines: while place < bytes.len() {
        let rest = &bytes[place..];
        match memchr(b'\n', rest) {
            Some(len) => {
                if is_end(&rest[..len]) {
                    return Some(place);
                }
                place += len + 1;
            }
            None => return None,
        }
    }
    None
}

/// Whether a text is that of the line that ends a bandwidth file.
fn is_end(text: &[u8]) -> bool
    ensures { result ≡ fronts.is_end_text text.now }
{
    text == b"end-bandwidth-file".as_slice()
}
