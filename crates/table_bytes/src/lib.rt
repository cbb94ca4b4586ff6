// A table of candidates in bytes: how many entries it has, how many are lent for it, and the entries written.
#![tactic(auto)]

ghost use Rattle.std.specs.Prelude.{◌≡◌, ◌*◌, min, length};
ghost use Rattle.table.specs.Table.{entries_of};
ghost use Rattle.table_bytes.specs.Entries.{entry_count, most_lent};

// How many entries of two bytes a table has; with a byte left over, none. The 0 is a count and no code: such a table is read as the empty list.
pub fn entry_count(len: usize) -> usize
    ensures { result ≡ entry_count len }
{
    if len % 2 == 0 { len / 2 } else { 0 }
}

// Writes each entry as two bytes, the more significant first.
#[tactic(auto, using(crate::proofs::EntryLaws::entries_are))]
pub fn write_entries(entries: &[u16], bytes: &mut [u8])
    requires { length bytes.old ≡ 2 * length entries.now }
    ensures { entries_of bytes.new ≡ entries.now }
{
    // After a zip with chunks_exact_mut the check knows how long the bytes are, and not what they hold.
    for (i, e) in entries.iter().enumerate() {
        bytes[2 * i..2 * i + 2].copy_from_slice(&e.to_be_bytes());
    }
}

// One entry more than the largest table has.
pub const MOST_LENT: usize = 82;

// How many entries are lent for a table: as many as it has, up to the most.
pub fn lent_count(len: usize) -> usize
    ensures { result ≡ min (entry_count len) most_lent }
{
    entry_count(len).min(MOST_LENT)
}
