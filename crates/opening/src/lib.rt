// Opening a table: every byte of the buffer written where the request is right and the length fits, or none.
#![tactic(auto)]

ghost use Rattle.std.specs.Prelude.{◌≡◌, true, ◌+◌, ◌*◌, ◌≤◌, length, replicate};
ghost use Rattle.words.specs.Numbers.{put};
ghost use Rattle.bounds.specs.Bounds.{max_bodies};
ghost use Rattle.entries.specs.Entry.{entry_size, request_size};
ghost use Rattle.table.specs.Table.{head_size};
ghost use Rattle.contents.specs.Contents.{entries_bytes};
ghost use Rattle.request.specs.Request.{first_body, asked, needed, request_ok};
ghost use Rattle.opening.specs.Opening.{no_cents, opened, open_code, OpenPromise};

// Why no table is opened.
#[derive(Clone, Copy)]
pub enum OpenRefusal {
    WrongRequest,
    WrongLength,
}

// What opening answers.
pub type Opened = Result<(), OpenRefusal>;

// Writes the entries of n bodies, after the head.
fn put_entries(t: &mut [u8], q: &[u8], n: usize)
    requires { (n ≤ max_bodies) × (first_body + request_size * n ≤ length q.now) × (head_size + entry_size * n ≤ length t.old) }
    ensures { t.new ≡ put t.old head_size
        (entries_bytes request_size no_cents q.now first_body n (head_size + entry_size * n)) }
{
    let mut p = table::HEAD + entries::ENTRY * n;
    for i in 0..n {
        let at = request::FIRST + entries::REQUEST * i;
        let form = &q[at..at + entries::REQUEST];
        contents::put_entry(t, table::HEAD + entries::ENTRY * i, form, p, 0, 0);
        p += record::SLOT * entries::slots_of(q, at);
    }
}

// Every byte of the table that a right request asks for.
fn fill(t: &mut [u8], q: &[u8], n: usize)
    requires { (request_ok q.now ≡ true) × (n ≡ asked q.now) × (length t.old ≡ needed q.now) }
    ensures { t.new ≡ opened q.now }
{
    t.fill(0);
    contents::put_head(t, n, request::length_for(q, n), &q[0..request::FIRST]);
    put_entries(t, q, n);
}

// Opens a table in the lent buffer: every byte is written, or none.
pub fn open_table(q: &[u8], t: &mut [u8]) -> Opened
    ensures { OpenPromise q.now t.old result t.new }
{
    if !request::request_ok(q) {
        return Err(OpenRefusal::WrongRequest);
    }
    let n = (q.len() - request::FIRST) / entries::REQUEST;
    if t.len() != request::length_for(q, n) {
        return Err(OpenRefusal::WrongLength);
    }
    fill(t, q, n);
    Ok(())
}

// Document 01's code of an answer.
pub fn code_of(o: Opened) -> u64
    ensures { result ≡ open_code o }
{
    match o {
        Ok(()) => 0,
        Err(OpenRefusal::WrongRequest) => 9,
        Err(OpenRefusal::WrongLength) => 10,
    }
}
