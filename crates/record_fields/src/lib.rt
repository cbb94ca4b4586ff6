// The fields of the record that a list begins with, and whether they are given bytes and numbers. A byte past the end of the list counts as 0, and a field
// that is not whole is empty.
#![tactic(auto)]

ghost use Rattle.std.specs.Prelude.{◌≡◌, ◌∷◌, [], ◌≤◌, ◌<◌, true, false, length, get_or, MatchOption};
ghost use Rattle.record_fields.specs.Fields.{tag, field_start, field_count, field as field_of, record_size, number_from, readable};
ghost use Rattle.record_fields.specs.Calls.{tag_of};
ghost use Rattle.record_fields.specs.Recorded.{Says, SumsRecorded, LongNumber, CountRecorded, BufferRecorded};

use std::fmt;

// The call that a record is of.
#[derive(Clone, Copy, PartialEq, Eq)]
pub enum Call {
    TargetSums = 1,
    MarkSheet = 2,
    Candidates = 3,
    Count = 4,
    Solve = 5,
    LineCheck = 6,
}

impl Call {
    pub const ALL: [Call; 6] = [
        Call::TargetSums,
        Call::MarkSheet,
        Call::Candidates,
        Call::Count,
        Call::Solve,
        Call::LineCheck,
    ];

    // The call whose records have this tag: of every other tag a record has no fields. An Option and no TryFrom, whose error would say nothing.
    #[tactic(auto, unfolding(crate::specs::Fields::field_count))]
    pub fn from_tag(tag: u8) -> Option<Call>
        ensures { MatchOption result (field_count tag ≡ 0) (λ call. tag_of call ≡ tag) }
    {
        match tag {
            1 => Some(Call::TargetSums),
            2 => Some(Call::MarkSheet),
            3 => Some(Call::Candidates),
            4 => Some(Call::Count),
            5 => Some(Call::Solve),
            6 => Some(Call::LineCheck),
            _ => None,
        }
    }

    // The tag of its records, read by `as`: an enum's number has no `From`.
    pub fn tag(self) -> u8
        ensures { result ≡ tag_of self }
    {
        self as u8
    }

    // How many fields its records have.
    #[tactic(auto, unfolding(crate::specs::Fields::field_count))]
    pub fn field_count(self) -> usize
        ensures is { result ≡ field_count (tag_of self) }
        ensures most { result ≤ 8 }
    {
        match self {
            Call::LineCheck => 4,
            Call::MarkSheet => 5,
            Call::TargetSums | Call::Candidates | Call::Solve => 7,
            Call::Count => 8,
        }
    }
}

impl fmt::Display for Call {
    fn fmt<W: fmt::Write>(&self, f: &mut fmt::Formatter<W>) -> fmt::Result {
        f.write_str(match self {
            Call::TargetSums => "target sums",
            Call::MarkSheet => "mark sheet",
            Call::Candidates => "candidates",
            Call::Count => "count",
            Call::Solve => "solve",
            Call::LineCheck => "check of a line",
        })
    }
}

// Byte i of a list.
pub fn byte(list: &[u8], i: usize) -> u8
    ensures { result ≡ get_or list.now i 0 }
{
    list.get(i).copied().unwrap_or(0)
}

// Where field k begins.
pub fn field_start(list: &[u8], k: usize) -> usize
    requires { k ≤ 8 }
    ensures { (result ≡ field_start list.now k) × (result < 1000000) }
{
    let mut at = 1;
    // A count: each field says where the next one begins.
    for _ in 0..k {
        at += 2 + usize::from(u16::from_be_bytes([byte(list, at), byte(list, at + 1)]));
    }
    at
}

// Field k. Fields go by their number here and below, which this reckons with: an enum of the eight would be a number again at each use.
pub fn field(list: &[u8], k: usize) -> &[u8]
    requires { k < 8 }
    ensures { result.now ≡ field_of list.now k }
{
    let start = field_start(list, k) + 2;
    let end = field_start(list, k + 1);
    list.get(start..end).unwrap_or(&[])
}

// The number that 8 bytes are, most significant first.
pub fn number(bytes: &[u8]) -> u64
    requires { length bytes.now ≡ 8 }
    ensures { result ≡ number_from 0 bytes.now }
{
    u64::from_be_bytes(*bytes.as_array().unwrap())
}

// The call of the record that the list begins with, if it is whole and its size is one byte.
pub fn readable_call(list: &[u8]) -> Option<Call>
    ensures { MatchOption result (readable list.now ≡ false) (λ call. (readable list.now ≡ true) × (tag_of call ≡ tag list.now)) }
{
    let call = Call::from_tag(byte(list, 0))?;
    let end = field_start(list, call.field_count());
    (end <= list.len() && field(list, 0).len() == 1).then_some(call)
}

// The size that the call is given.
pub fn size(list: &[u8]) -> usize
    ensures { result ≡ record_size list.now }
{
    usize::from(byte(field(list, 0), 0))
}

// Whether field k is these bytes.
pub fn is_field(list: &[u8], k: usize, content: &[u8]) -> bool
    requires { k < 8 }
    ensures { Says result (field_of list.now k ≡ content.now) }
{
    field(list, k) == content
}

// Whether field k is one byte, the number.
pub fn is_number(list: &[u8], k: usize, number: u8) -> bool
    requires { k < 8 }
    ensures { Says result (field_of list.now k ≡ number ∷ []) }
{
    is_field(list, k, &[number])
}

// Whether a number and two target slices are as recorded.
pub fn sums_recorded(list: &[u8], number: u8, rows: &[u8], columns: &[u8]) -> bool
    ensures { Says result (SumsRecorded number rows.now columns.now list.now) }
{
    is_number(list, 4, number) && is_field(list, 5, rows) && is_field(list, 6, columns)
}

// Whether a number and a buffer are as recorded.
pub fn buffer_recorded(list: &[u8], number: u8, content: &[u8]) -> bool
    ensures { Says result (BufferRecorded number content.now list.now) }
{
    is_number(list, 5, number) && is_field(list, 6, content)
}

// Whether field k is 8 bytes, the number.
pub fn is_long_number(list: &[u8], k: usize, v: u64) -> bool
    requires { k < 8 }
    ensures { Says result (LongNumber v (field_of list.now k)) }
{
    let bytes = field(list, k);
    bytes.len() == 8 && number(bytes) == v
}

// Whether a number and a count are as recorded.
pub fn count_recorded(list: &[u8], answer: u8, count: u64) -> bool
    ensures { Says result (CountRecorded answer count list.now) }
{
    is_number(list, 6, answer) && is_long_number(list, 7, count)
}
