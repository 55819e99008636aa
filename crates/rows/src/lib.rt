// The children that a parent names, in the rows of its table; and the one reader of a field.
#![tactic(auto)]

ghost use Rattle.std.specs.Prelude.{◌≡◌, ◌+◌, ◌≤◌, length};
ghost use Rattle.markup.specs.Noted.{Noted};
ghost use Rattle.schema.specs.Table.{table, spot_in};
ghost use Rattle.rows.specs.Kept.{kept_from, next_of};
ghost use Rattle.rows.specs.Read.{field_read};
ghost use Rattle.rows.specs.Replaces.{replaces, rows_for};
ghost use Rattle.rows.specs.Operation.{Says, Tells};
ghost use Rattle.tokens.specs.Tokens.{white_at};

use children::Child;
use fields::{Form, Value};
use schema::{Holds, Parent};

// A field of the flow, read by its form: its value and the place after it, or the place of the `<` of one that breaks.
pub type FieldRead = Result<(Value, usize), usize>;

// A child that its parent names.
#[derive(Clone, Copy)]
pub struct Kept {
    pub child: Child,
    pub row: usize,
    pub holds: Holds,
}

// Where a name stands in its parent's table.
pub fn spot_of(s: &[u8], a: usize, e: usize, parent: Parent) -> Option<(usize, Holds)>
    requires { (a ≤ e) × (e ≤ length s.now) }
    ensures { result ≡ spot_in (table parent) 0 s.now a e }
{
    match parent {
        Parent::FlussoOrdinativi => schema::flusso_spot(s, a, e),
        Parent::Mandato(r) => schema::mandato_spot(s, a, e, r),
        Parent::Reversale(r) => schema::reversale_spot(s, a, e, r),
        Parent::InformazioniBeneficiario(r) => schema::informazioni_beneficiario_spot(s, a, e, r),
        Parent::InformazioniVersante(r) => schema::informazioni_versante_spot(s, a, e, r),
        Parent::SostituzioneMandato => schema::sostituzione_mandato_spot(s, a, e),
        Parent::SostituzioneReversale => schema::sostituzione_reversale_spot(s, a, e),
        Parent::Beneficiario => schema::beneficiario_spot(s, a, e),
        Parent::Versante => schema::versante_spot(s, a, e),
        Parent::FlussoOpi => schema::opi_spot(s, a, e),
        Parent::TestataFlusso => schema::testata_flusso_spot(s, a, e),
        Parent::MessaggiEsito
        | Parent::TestataMessaggio
        | Parent::EsitoReversali
        | Parent::EsitoMandati
        | Parent::ErroriReversali
        | Parent::ErroriMandati => schema_messages::message_spot(s, a, e, parent),
    }
}

// The first child from a place on that the parent names.
pub fn next_named(s: &[u8], from: usize, parent: Parent, past: &[u32]) -> Option<Kept>
    requires { (from ≤ length s.now) × Noted s.now past.now }
    ensures { result ≡ next_of (kept_from parent s.now from) }
{
    let mut i = from;
    while let Some(child) = children::child_at(s, i, past) {
        if let Some((row, holds)) = spot_of(s, child.lt + 1, child.gt, parent) {
            return Some(Kept { child, row, holds });
        }
        i = child.after;
    }
    None
}

// What the order whose first child begins at a place says of replacing, where that is its tipo_operazione, written as usual: no note is needed for it.
fn operation_at(s: &[u8], i: usize) -> Option<bool>
    requires { i ≤ length s.now }
    ensures { Tells s.now i result }
{
    if !tags::stands(s, i, b"<tipo_operazione>") {
        return None;
    }
    let at = i + 17;
    if tags::stands(s, at, b"INSERIMENTO</tipo_operazione>") {
        Some(false)
    } else if tags::stands(s, at, b"SOSTITUZIONE</tipo_operazione>") {
        Some(true)
    } else if tags::stands(s, at, b"VARIAZIONE</tipo_operazione>")
        || tags::stands(s, at, b"ANNULLO</tipo_operazione>")
    {
        Some(false)
    } else {
        None
    }
}

// Whether the order whose children begin at a place replaces others. (Its first named child is tipo_operazione, where its structure stands.)
fn is_replacing_from(s: &[u8], from: usize, parent: Parent, past: &[u32]) -> bool
    requires { (from ≤ length s.now) × Noted s.now past.now }
    ensures { result ≡ replaces s.now (kept_from parent s.now from) }
{
    let mut i = from;
    while let Some(k) = next_named(s, i, parent, past) {
        let c = k.child;
        if k.row == 0 {
            return schema::is(s, c.gt + 1, c.to, b"SOSTITUZIONE");
        }
        i = c.after;
    }
    false
}

// Whether the order whose content begins at a place replaces others.
fn is_replacing(s: &[u8], at: usize, parent: Parent, past: &[u32]) -> bool
    requires { (at ≤ length s.now) × Noted s.now past.now × Says parent }
    ensures { result ≡ replaces s.now (kept_from parent s.now (white_at s.now at)) }
{
    let i = scan::white_end(s, at);
    match operation_at(s, i) {
        Some(b) => b,
        None => is_replacing_from(s, i, parent, past),
    }
}

// The parent whose rows content has, where its element's name says `parent`: an order is told whether it replaces others.
pub fn rows_for(s: &[u8], at: usize, parent: Parent, past: &[u32]) -> Parent
    requires { (at ≤ length s.now) × Noted s.now past.now }
    ensures { result ≡ rows_for parent s.now at }
{
    match parent {
        Parent::Mandato(_) => Parent::Mandato(is_replacing(s, at, parent, past)),
        Parent::Reversale(_) => Parent::Reversale(is_replacing(s, at, parent, past)),
        _ => parent,
    }
}

// The one reader of a field, for those who judge it and those who take its value: the value and the place after the field, or the place of its `<`.
pub fn read_field(s: &[u8], c: Child, f: Form) -> FieldRead
    requires { (c.gt + 1 ≤ c.to) × (c.to ≤ length s.now) }
    ensures { result ≡ field_read s.now f c }
{
    let v = fields::value_of(f, &s[c.gt + 1..c.to]).ok_or(c.lt)?;
    Ok((v, c.after))
}
