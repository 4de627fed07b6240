// Fields: a one-byte tag, a two-byte length, and the content.
ghost use Rattle.std.specs.Prelude.{◌≡◌, ◌≤◌, length};
ghost use Rattle.gridfile.specs.Lookups.{field_at, stands_at};

use crate::numbers::bytes_at;

// A part of the file: where it starts, and how many bytes it has. It is no slice, as `parsed` and
// `usable` (proofs/Requests.antt) say where in the file each grid of a request stands.
#[derive(Clone, Copy)]
pub struct Part {
    pub start: usize,
    pub len: usize,
}

// The content of the field at a place, which must have this tag and must not be cut.
pub fn field_at(file: &[u8], at: usize, tag: u8) -> Option<Part>
    requires { at ≤ length file.now }
    ensures { result ≡ field_at file.now at tag }
{
    if file.len() - at < 3 || file[at] != tag {
        return None;
    }
    let len = u16::from_le_bytes(bytes_at(file, at + 1)) as usize;
    let start = at + 3;
    if file.len() - start < len {
        return None;
    }
    Some(Part { start, len })
}

// Whether a field of this tag and length stands at a place.
pub fn stands_at(file: &[u8], at: usize, tag: u8, len: usize) -> bool
    requires { at ≤ length file.now }
    ensures { result ≡ stands_at file.now at tag len }
{
    field_at(file, at, tag).is_some_and(|part| part.len == len)
}
