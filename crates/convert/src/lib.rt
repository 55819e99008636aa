// A table 1 converted into a table 2: every byte of the second buffer written where the old table is valid and the length fits, or none.
#![tactic(auto)]

ghost use Rattle.std.specs.Prelude.{◌≡◌, true, ◌+◌, ◌*◌, ◌≤◌, length};
ghost use Rattle.bounds.specs.Bounds.{max_slots};
ghost use Rattle.words.specs.Numbers.{put};
ghost use Rattle.record.specs.Slot.{slot_size};
ghost use Rattle.body.specs.Body.{body_ok};
ghost use Rattle.entries.specs.Entry.{entry_size, entry_fixed, slots_of, place_of};
ghost use Rattle.table.specs.Table.{table1, head_size, bodies, valid_as};
ghost use Rattle.contents.specs.Contents.{entries_bytes};
ghost use Rattle.convert.specs.Convert.{cents_at, grown_length, converted, convert_code, ConvertPromise};

// How much longer an entry of table 2 is than one of table 1.
const MORE: usize = entries::ENTRY - table::OLD_ENTRY;

// Why a table is not converted.
#[derive(Clone, Copy)]
pub enum ConvertRefusal {
    InvalidTable,
    WrongLength,
}

// What conversion answers.
pub type Converted = Result<(), ConvertRefusal>;

// The cents that a body's executed lines paid and collected.
#[derive(Clone, Copy)]
pub struct Totals {
    pub paid: u64,
    pub collected: u64,
}

// The totals of the valid body of the old table whose entry is at a place.
fn totals_at(o: &[u8], at: usize) -> Totals
    requires { (at + entry_fixed ≤ length o.now) × (place_of o.now at + slot_size * slots_of o.now at ≤ length o.now)
        × (slots_of o.now at ≤ max_slots) × (body_ok o.now (place_of o.now at) (slots_of o.now at) ≡ true) }
    ensures { (result.paid ≡ cents_at o.now 1 at) × (result.collected ≡ cents_at o.now 2 at) }
{
    let base = entries::place_of(o, at);
    let n = entries::slots_of(o, at);
    let (paid, collected) = body::judge(o, base, n).unwrap_or((0, 0));
    Totals { paid, collected }
}

// Writes the entries of n bodies, after the head.
fn put_entries(t: &mut [u8], o: &[u8], n: usize)
    requires { (valid_as table1 o.now ≡ true) × (n ≡ bodies o.now) × (head_size + entry_size * n ≤ length t.old) }
    ensures { t.new ≡ put t.old head_size
        (entries_bytes table1.entry (cents_at o.now) o.now head_size n (head_size + entry_size * n)) }
{
    let mut p = table::HEAD + entries::ENTRY * n;
    for i in 0..n {
        let at = table::HEAD + table::OLD_ENTRY * i;
        let to = table::HEAD + entries::ENTRY * i;
        let form = &o[at..at + entries::REQUEST];
        let sums = totals_at(o, at);
        contents::put_entry(t, to, form, p, sums.paid, sums.collected);
        p += record::SLOT * entries::slots_of(o, at);
    }
}

// Every byte of the table 2 that a valid table 1 becomes.
fn fill(t: &mut [u8], o: &[u8], n: usize)
    requires { (valid_as table1 o.now ≡ true) × (n ≡ bodies o.now) × (length t.old ≡ grown_length o.now) }
    ensures { t.new ≡ converted o.now }
{
    let len = t.len();
    contents::put_head(t, n, len, &o[table::ABI..table::REST]);
    put_entries(t, o, n);
    let from = table::HEAD + table::OLD_ENTRY * n;
    let end = o.len();
    words::copy_in(t, table::HEAD + entries::ENTRY * n, &o[from..end]);
}

// Converts a table 1 into the lent buffer: every byte is written, or none.
pub fn convert(o: &[u8], t: &mut [u8]) -> Converted
    ensures { ConvertPromise o.now t.old result t.new }
{
    if !table::valid_as(o, table::table_1()) {
        return Err(ConvertRefusal::InvalidTable);
    }
    let n = table::body_count(o);
    if t.len() != o.len() + MORE * n {
        return Err(ConvertRefusal::WrongLength);
    }
    fill(t, o, n);
    Ok(())
}

// Document 01's code of an answer.
pub fn code_of(c: Converted) -> u64
    ensures { result ≡ convert_code c }
{
    match c {
        Ok(()) => 0,
        Err(ConvertRefusal::InvalidTable) => 1,
        Err(ConvertRefusal::WrongLength) => 10,
    }
}
