// Text appended to what a buffer holds: bytes, and numbers in decimal. How much room is left stands in contracts and not in a type: it is less after
// each push.
#![tactic(auto)]

ghost use Rattle.std.specs.Prelude.{◌≡◌, ◌+◌, ◌≤◌, ◌++◌, length, decimal};
ghost use Rattle.arrayvec.specs.ArrayVec.{array_vec_len};

use arrayvec::ArrayVec;
use itoa::Buffer;

// A text.
pub fn write_text<const N: usize>(text: &[u8], out: &mut ArrayVec<u8, N>)
    requires { array_vec_len out.old + length text.now ≤ N }
    ensures { out.new.items ≡ out.old.items ++ text.now }
{
    // Byte by byte: `try_extend_from_slice` looks again whether there is room.
    for b in text {
        out.push(*b);
    }
}

// A number in decimal, which has at most three digits.
pub fn write_number<const N: usize>(k: u8, out: &mut ArrayVec<u8, N>)
    requires { array_vec_len out.old + 3 ≤ N }
    ensures text { out.new.items ≡ out.old.items ++ decimal k }
    ensures short { array_vec_len out.new ≤ array_vec_len out.old + 3 }
{
    write_text(Buffer::new().format(k).as_bytes(), out);
}
