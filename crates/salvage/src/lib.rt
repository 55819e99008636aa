// Salvage of a damaged table: head and entries tested, the report written, each body repaired; or nothing is written.
#![tactic(auto)]

ghost use Rattle.std.specs.Prelude.{◌≡◌, true, ◌+◌, ◌*◌, ◌≤◌, length};
ghost use Rattle.bounds.specs.Bounds.{max_slots};
ghost use Rattle.words.specs.Numbers.{put, bytes2, bytes4};
ghost use Rattle.body.specs.Body.{body_ok};
ghost use Rattle.entries.specs.Entry.{slots_of, place_of};
ghost use Rattle.table.specs.Table.{table2, head_size, bodies, contents_ok, records_of};
ghost use Rattle.service.specs.Service.{settled};
ghost use Rattle.keeping.specs.Keeping.{each_bytes};
ghost use Rattle.salvage.specs.Salvage.{body_repaired, repaired, moved_in, blanked, salvage_reply, SalvagePromise};
ghost use Rattle.salvage.specs.Inner.{Fits};

// Why a table is not repaired.
#[derive(Clone, Copy)]
pub enum SalvageRefusal {
    InvalidContents,
    ShortReport,
}

// What a repair answers: how many slots were blanked, or why nothing was done.
pub type Salvaged = Result<usize, SalvageRefusal>;

// An answer in document 02's numbers.
// Code and values stand side by side, since C takes them one by one (`hondivole_salvage`).
#[derive(Clone, Copy)]
pub struct SalvageReply {
    pub code: u64,
    pub blanked: u64,
}

// How many slots are blanked.
fn count_blanked(t: &[u8], n: usize) -> usize
    requires { (contents_ok table2 t.now ≡ true) × (n ≡ bodies t.now) }
    ensures { (result ≡ length (blanked t.now)) × (result ≤ max_slots * n) }
{
    let mut count = 0;
    for i in 0..n {
        let at = table::HEAD + entries::ENTRY * i;
        let base = entries::place_of(t, at);
        let slots = entries::slots_of(t, at);
        let closed = entries::closed_of(t, at);
        count += mending::blanked_in(t, base, slots, closed);
    }
    count
}

// Writes each body's count of moved records.
fn put_moved(r: &mut [u8], t: &[u8], n: usize)
    requires { (contents_ok table2 t.now ≡ true) × (n ≡ bodies t.now) × (2 * n ≤ length r.old) }
    ensures { r.new ≡ put r.old 0 (each_bytes bytes2 (moved_in t.now head_size n)) }
{
    for i in 0..n {
        let at = table::HEAD + entries::ENTRY * i;
        let base = entries::place_of(t, at);
        let slots = entries::slots_of(t, at);
        let closed = entries::closed_of(t, at);
        words::write2(r, 2 * i, mending::moved_in(t, base, slots, closed) as u64);
    }
}

// Writes the old place of each blanked slot.
fn put_blanked(r: &mut [u8], t: &[u8], n: usize)
    requires { (contents_ok table2 t.now ≡ true) × (n ≡ bodies t.now) × (2 * n + 4 * length (blanked t.now) ≤ length r.old) }
    ensures { r.new ≡ put r.old (2 * n) (each_bytes bytes4 (blanked t.now)) }
{
    let mut to = 2 * n;
    for i in 0..n {
        let at = table::HEAD + entries::ENTRY * i;
        let base = entries::place_of(t, at);
        let slots = entries::slots_of(t, at);
        let closed = entries::closed_of(t, at);
        to = mending::places_in(r, to, t, base, slots, closed);
    }
}

// Sets the totals that an entry keeps anew, from its body's records.
fn settle_at(t: &mut [u8], at: usize)
    requires { Fits t.old at × (body_ok t.old (place_of t.old at) (slots_of t.old at) ≡ true) }
    ensures { t.new ≡ settled t.old at (records_of t.old at) }
{
    let base = entries::place_of(t, at);
    let n = entries::slots_of(t, at);
    if let Some((paid, collected)) = body::judge(t, base, n) {
        entries::settle(t, at, paid, collected);
    }
}

// Repairs the body whose entry is at a place.
fn repair_at(t: &mut [u8], at: usize)
    requires { Fits t.old at }
    ensures { t.new ≡ body_repaired t.old at }
{
    let base = entries::place_of(t, at);
    let n = entries::slots_of(t, at);
    let closed = entries::closed_of(t, at);
    mending::repair_in(t, base, n, closed);
    settle_at(t, at);
}

// Repairs every body.
fn repair_all(t: &mut [u8], n: usize)
    requires { (contents_ok table2 t.old ≡ true) × (n ≡ bodies t.old) }
    ensures { t.new ≡ repaired t.old }
{
    for i in 0..n {
        let at = table::HEAD + entries::ENTRY * i;
        repair_at(t, at);
    }
}

// Repairs a table and writes the report, or leaves both as they are. Nothing is written before it is known that the report fits.
pub fn salvage(t: &mut [u8], report: &mut [u8]) -> Salvaged
    ensures { SalvagePromise t.old report.old result t.new report.new }
{
    if !table::contents_ok(t, table::table_2()) {
        return Err(SalvageRefusal::InvalidContents);
    }
    let n = table::body_count(t);
    let count = count_blanked(t, n);
    if report.len() < 2 * n + 4 * count {
        return Err(SalvageRefusal::ShortReport);
    }
    put_moved(report, t, n);
    put_blanked(report, t, n);
    repair_all(t, n);
    Ok(count)
}

// Document 02's numbers of an answer.
pub fn reply_of(a: Salvaged) -> SalvageReply
    ensures { (result.code ≡ (salvage_reply a).code) × (result.blanked ≡ (salvage_reply a).blanked) }
{
    match a {
        Ok(count) => SalvageReply {
            code: 0,
            blanked: count as u64,
        },
        Err(SalvageRefusal::InvalidContents) => SalvageReply {
            code: 34,
            blanked: 0,
        },
        Err(SalvageRefusal::ShortReport) => SalvageReply {
            code: 35,
            blanked: 0,
        },
    }
}
