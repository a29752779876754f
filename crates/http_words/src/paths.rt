// What stands of a path.
ghost use Rattle.std.specs.Prelude.{◌≡◌, drop};

/// What stands of a path from a place on.
pub fn behind(path: &[u8], place: usize) -> &[u8]
    ensures { result.now ≡ drop place path.now }
{
    match path.get(place..) {
        Some(rest) => rest,
        None => b"",
    }
}
