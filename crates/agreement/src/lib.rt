// What an outcome message's fields say of each other: the first element of an entry that doesn't agree with the others (Req 01).
#![tactic(auto)]

ghost use Rattle.std.specs.Prelude.{◌≡◌, ◌≤◌, length};
ghost use Rattle.scan.specs.Bytes.{bytes, text_is};
ghost use Rattle.markup.specs.Noted.{Noted};
ghost use Rattle.schema.specs.declared.Parent.TheVariants.{MessaggiEsito};
ghost use Rattle.rows.specs.Kept.{kept_from};
ghost use Rattle.orders.specs.Orders.{value_of, in_row};
ghost use Rattle.tree.specs.Orders.{mandato_words, reversale_words};
ghost use Rattle.message.specs.Message.{element_name};
ghost use Rattle.agreement.specs.Agreement.{words_of, entry_parent, errors_parent, entry_row, word_stands, or_off, errors_off_at, entry_off_at, entries_off_at, off_from};

use codes::Esito;
use schema::Parent;

// The two kinds of entries, as a message has them.
#[derive(Clone, Copy)]
pub enum EntryKind {
    Reversale,
    Mandato,
}

pub fn entry_parent(k: EntryKind) -> Parent
    ensures { result ≡ entry_parent k }
{
    match k {
        EntryKind::Reversale => Parent::EsitoReversali,
        EntryKind::Mandato => Parent::EsitoMandati,
    }
}

pub fn errors_parent(k: EntryKind) -> Parent
    ensures { result ≡ errors_parent k }
{
    match k {
        EntryKind::Reversale => Parent::ErroriReversali,
        EntryKind::Mandato => Parent::ErroriMandati,
    }
}

// The row of the root's table that the entries stand in.
pub fn entry_row(k: EntryKind) -> usize
    ensures { result ≡ entry_row k }
{
    match k {
        EntryKind::Reversale => 2,
        EntryKind::Mandato => 3,
    }
}

// The number that a field's text writes, 0 if it writes none.
pub fn value_of(n: Option<u64>) -> u64
    ensures { result ≡ value_of n }
{
    n.unwrap_or(0)
}

// Whether a text is the name of the element that a refusal of an order speaks of.
fn is_element(t: &[u8], kind: EntryKind, code: u64) -> bool
    ensures { result ≡ text_is (bytes (element_name (words_of kind) code)) t.now }
{
    match (code, kind) {
        (11, _) => scan::same(t, b"tipo_operazione"),
        (12, EntryKind::Reversale) => scan::same(t, b"progressivo_versante"),
        (12, EntryKind::Mandato) => scan::same(t, b"progressivo_beneficiario"),
        (13 | 19, EntryKind::Reversale) => scan::same(t, b"importo_reversale"),
        (13 | 19, EntryKind::Mandato) => scan::same(t, b"importo_mandato"),
        (_, EntryKind::Reversale) => scan::same(t, b"numero_reversale"),
        (_, EntryKind::Mandato) => scan::same(t, b"numero_mandato"),
    }
}

// A refused word has a list of errors, an accepted one none.
fn word_stands(e: Option<Esito>, listed: bool) -> bool
    ensures { result ≡ word_stands e «listed» }
{
    match e {
        Some(Esito::Accepted(_)) => !listed,
        Some(Esito::Refused(_)) => listed,
        None => false,
    }
}

// A list of errors, its children from a place on: descrizione is the code again, elemento the name for the code.
fn errors_off(s: &[u8], from: usize, kind: EntryKind, past: &[u32]) -> Option<usize>
    requires { (from ≤ length s.now) × Noted s.now past.now }
    ensures { result ≡ errors_off_at kind s.now (kept_from (errors_parent kind) s.now from) }
{
    let each = parts::parts_of(s, from, errors_parent(kind), past);
    let code = each[1];
    let again = each[2];
    let name = each[3];
    if !scan::same(parts::text_at(s, again), parts::text_at(s, code)) {
        return Some(again.lt);
    }
    let n = value_of(digits::codice_errore(parts::text_at(s, code)));
    if !is_element(parts::text_at(s, name), kind, n) {
        return Some(name.lt);
    }
    None
}

// An entry, its children from a place on.
fn entry_off(s: &[u8], from: usize, kind: EntryKind, past: &[u32]) -> Option<usize>
    requires { (from ≤ length s.now) × Noted s.now past.now }
    ensures { result ≡ entry_off_at kind s.now (kept_from (entry_parent kind) s.now from) }
{
    let each = parts::parts_of(s, from, entry_parent(kind), past);
    let word = each[6];
    let list = each[8];
    if !word_stands(
        codes::esito_operazione(parts::text_at(s, word)),
        list.to != 0,
    ) {
        return Some(word.lt);
    }
    if list.to == 0 {
        return None;
    }
    errors_off(s, scan::white_end(s, list.from), kind, past)
}

// The entries of a kind among the root's children from a place on.
fn entries_off(s: &[u8], from: usize, kind: EntryKind, past: &[u32]) -> Option<usize>
    requires { (from ≤ length s.now) × Noted s.now past.now }
    ensures { result ≡ entries_off_at kind s.now (in_row (entry_row kind) (kept_from MessaggiEsito s.now from)) }
{
    let row = entry_row(kind);
    let mut i = from;
    while let Some(k) = parts::next_row(s, i, Parent::MessaggiEsito, row, past) {
        let c = k.child;
        let off = entry_off(s, scan::white_end(s, c.gt + 1), kind, past);
        if off.is_some() {
            return off;
        }
        i = c.after;
    }
    None
}

// All entries: reversali stand before mandati.
pub fn first_off(s: &[u8], from: usize, past: &[u32]) -> Option<usize>
    requires { (from ≤ length s.now) × Noted s.now past.now }
    ensures { result ≡ off_from s.now from }
{
    entries_off(s, from, EntryKind::Reversale, past).or_else(|| entries_off(
        s,
        from,
        EntryKind::Mandato,
        past,
    ))
}
