// The numbers of a line of `sheet`, read from its bytes.
#![tactic(auto)]

ghost use Rattle.std.specs.Prelude.{◌≡◌, true, false, MatchOption};
ghost use Rattle.std.specs.Bool.{then_some};
ghost use Rattle.text_rules.specs.Fields.{is_decimal, value as Fields·value, well_formed, numbers};
ghost use Rattle.text_numbers.specs.Read.{value_if};

use arrayvec::ArrayVec;

// The value of a field of digits, if there is no other byte and the value is at most 255.
fn value(field: &[u8]) -> Option<u8>
    ensures { result ≡ value_if 0 field.now }
{
    let mut v: u32 = 0;
    for b in field {
        if !b.is_ascii_digit() {
            return None;
        }
        // One test of the value for each digit, where `checked_mul` and `checked_add` make two.
        v = v * 10 + u32::from(*b - b'0');
        if 255 < v {
            return None;
        }
    }
    u8::try_from(v).ok()
}

// The value of a decimal, which is not empty, and begins with a zero only where that is all of it.
fn decimal(field: &[u8]) -> Option<u8>
    ensures { result ≡ then_some (is_decimal field.now) (Fields·value field.now) }
{
    match field {
        [] => None,
        [b'0', _, ..] => None,
        _ => value(field),
    }
}

// The most bytes of a line.
const LONGEST: usize = 80;

// The numbers of a line, if it is well formed; the room holds them. It has 41 places, as many as a line may have numbers: with any number of places the check
// does not admit the loop (tried).
pub fn read_numbers<'a>(line: &[u8], room: &'a mut ArrayVec<u8, 41>) -> Option<&'a [u8]>
    ensures { MatchOption result (well_formed line.now ≡ false) (λ ns. (well_formed line.now ≡ true) × (ns.now ≡ numbers line.now)) }
{
    if LONGEST < line.len() {
        return None;
    }
    room.clear();
    for field in line.split(|b| *b == b' ') {
        room.push(decimal(field)?);
    }
    Some(room)
}
