// The contents of a table written: the head, and one body's entry.
#![tactic(auto)]

ghost use Rattle.std.specs.Prelude.{◌≡◌, ◌+◌, ◌≤◌, length};
ghost use Rattle.words.specs.Numbers.{put};
ghost use Rattle.bounds.specs.Bounds.{abi_length};
ghost use Rattle.entries.specs.Entry.{entry_size, request_size};
ghost use Rattle.table.specs.Table.{head_size};
ghost use Rattle.contents.specs.Contents.{head_bytes, entry_bytes};

// Writes the head of a table of n bodies and of a length, of the bank with these ABI digits.
pub fn put_head(t: &mut [u8], n: usize, len: usize, abi: &[u8])
    requires { (head_size ≤ length t.old) × (length abi.now ≡ abi_length) }
    ensures { t.new ≡ put t.old 0 (head_bytes n len abi.now) }
{
    words::write2(t, 0, n as u64);
    words::write2(t, 2, 2);
    words::write4(t, 4, len as u64);
    words::copy_in(t, table::ABI, abi);
    words::copy_in(t, table::REST, &[0; 3]);
}

// Writes the entry at a place: its bytes 0 to 19, the place of the first slot, the cents paid and collected, no closed year, and zeros.
pub fn put_entry(t: &mut [u8], to: usize, form: &[u8], p: usize, paid: u64, collected: u64)
    requires { (to + entry_size ≤ length t.old) × (length form.now ≡ request_size) }
    ensures { t.new ≡ put t.old to (entry_bytes form.now p paid collected) }
{
    words::copy_in(t, to, form);
    words::write4(t, to + entries::REQUEST, p as u64);
    entries::settle(t, to, paid, collected);
    words::copy_in(t, to + entries::CLOSED, &[0; 8]);
}
