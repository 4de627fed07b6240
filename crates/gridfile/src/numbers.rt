// Bytes at a place. Numbers are little-endian: std's `from_le_bytes` and `to_le_bytes` have them.
ghost use Rattle.std.specs.Prelude.{◌≡◌, ◌+◌, ◌≤◌, length, take, drop};
ghost use Rattle.gridfile.specs.Answers.{Stored};

// So many bytes as the array has, which stand at a place of the file.
pub fn bytes_at<const N: usize>(file: &[u8], at: usize) -> [u8; N]
    requires { at + N ≤ length file.now }
    ensures { result ≡ take N (drop at file.now) }
{
    let mut bytes = [0u8; N];
    bytes.copy_from_slice(&file[at..at + N]);
    bytes
}

// Stores bytes at a place, and gives the place after them. (A struct of the output and the place would
// be no plainer: each of its methods would have to promise that it keeps the same `&mut`.)
pub fn put(output: &mut [u8], at: usize, bytes: &[u8]) -> usize
    requires { at + length bytes.now ≤ length output.old }
    ensures { Stored bytes.now at output.old output.new result }
{
    let end = at + bytes.len();
    output[at..end].copy_from_slice(bytes);
    end
}
