// The start tags that the structure lets expect, compared as they stand, eight bytes at a time.
#![tactic(auto)]

ghost use Rattle.std.specs.Prelude.{◌≡◌, ◌≤◌, ◌<◌, length};
ghost use Rattle.scan.specs.Bytes.{bytes, has_at};
ghost use Rattle.tags.specs.Tags.{Seen};
ghost use Rattle.tags.specs.Inner.{tag_at, order_at, Heads, SeenBy};

use fields::Form;
use schema::{Holds, Parent};

// Whether the bytes x stand at a position. (The last eight may overlap those before them.)
pub fn stands(s: &[u8], at: usize, x: &[u8]) -> bool
    requires { at ≤ length s.now }
    ensures { result ≡ has_at x.now s.now at }
{
    let n = x.len();
    if s.len() - at < n {
        return false;
    }
    if n < 8 {
        return scan::has(s, at, x);
    }
    let last = n - 8;
    // Kept as a loop by index: it steps by eight, and `step_by` asks for a measure and a proof of its own, so it is no plainer.
    let mut i = 0;
    while i < last {
        if words::read8(s, at + i) != words::read8(x, i) {
            return false;
        }
        i += 8;
    }
    words::read8(s, at + last) == words::read8(x, last)
}

// The tag x of a row, where it stands.
fn tag_at(s: &[u8], i: usize, x: &[u8], row: usize, h: Holds) -> Option<(usize, usize, Holds)>
    requires { (i ≤ length s.now) × (0 < length x.now) }
    ensures { result ≡ tag_at x.now row h s.now i None }
{
    if stands(s, i, x) {
        Some((i + (x.len() - 1), row, h))
    } else {
        None
    }
}

// The tag of an order, in the row of its root that orders have.
fn order_at(s: &[u8], i: usize, row: usize) -> Option<(usize, usize, Holds)>
    requires { i ≤ length s.now }
    ensures { result ≡ order_at row s.now i }
{
    if stands(s, i, b"<mandato>") {
        Some((i + 8, row, Holds::Rows(Parent::Mandato(false))))
    } else {
        tag_at(
            s,
            i,
            b"<reversale>",
            row,
            Holds::Rows(Parent::Reversale(false)),
        )
    }
}

// The fields that the headers of both editions begin with; the form of their time differs.
fn header_at(s: &[u8], i: usize, want: usize, time: Form) -> Option<(usize, usize, Holds)>
    requires { i ≤ length s.now }
    ensures { SeenBy (Heads time) s.now i result }
{
    match want {
        0 => tag_at(s, i, b"<codice_ABI_BT>", 0, Holds::Text(Form::CodiceAbi)),
        1 => tag_at(
            s,
            i,
            b"<identificativo_flusso>",
            1,
            Holds::Text(Form::Identificativo),
        ),
        2 => tag_at(s, i, b"<data_ora_creazione_flusso>", 2, Holds::Text(time)),
        3 => tag_at(s, i, b"<codice_ente_BT>", 3, Holds::Text(Form::CodiceEnte)),
        _ => None,
    }
}

fn in_flusso(s: &[u8], i: usize, want: usize) -> Option<(usize, usize, Holds)>
    requires { i ≤ length s.now }
    ensures { Seen Parent.FlussoOrdinativi s.now i result }
{
    match want {
        0..=3 => header_at(s, i, want, Form::DataOra),
        4 => tag_at(s, i, b"<esercizio>", 4, Holds::Text(Form::Esercizio)),
        _ => order_at(s, i, 5),
    }
}

fn in_opi(s: &[u8], i: usize, want: usize) -> Option<(usize, usize, Holds)>
    requires { i ≤ length s.now }
    ensures { Seen Parent.FlussoOpi s.now i result }
{
    match want {
        0 => tag_at(
            s,
            i,
            b"<testata_flusso>",
            0,
            Holds::Rows(Parent::TestataFlusso),
        ),
        1 => tag_at(s, i, b"<esercizio>", 1, Holds::Text(Form::Esercizio)),
        _ => order_at(s, i, 2),
    }
}

fn in_mandato(s: &[u8], i: usize, want: usize, replaces: bool) -> Option<(usize, usize, Holds)>
    requires { i ≤ length s.now }
    ensures { Seen (Parent.Mandato replaces) s.now i result }
{
    match want {
        0 => tag_at(
            s,
            i,
            b"<tipo_operazione>",
            0,
            Holds::Text(Form::TipoOperazione),
        ),
        1 => tag_at(s, i, b"<numero_mandato>", 1, Holds::Text(Form::Numero)),
        2 => tag_at(s, i, b"<data_mandato>", 2, Holds::Text(Form::Data)),
        3 => tag_at(s, i, b"<importo_mandato>", 3, Holds::Text(Form::Importo)),
        _ => tag_at(
            s,
            i,
            b"<informazioni_beneficiario>",
            4,
            Holds::Rows(Parent::InformazioniBeneficiario(replaces)),
        ),
    }
}

fn in_reversale(s: &[u8], i: usize, want: usize, replaces: bool) -> Option<(usize, usize, Holds)>
    requires { i ≤ length s.now }
    ensures { Seen (Parent.Reversale replaces) s.now i result }
{
    match want {
        0 => tag_at(
            s,
            i,
            b"<tipo_operazione>",
            0,
            Holds::Text(Form::TipoOperazione),
        ),
        1 => tag_at(s, i, b"<numero_reversale>", 1, Holds::Text(Form::Numero)),
        2 => tag_at(s, i, b"<data_reversale>", 2, Holds::Text(Form::Data)),
        3 => tag_at(s, i, b"<importo_reversale>", 3, Holds::Text(Form::Importo)),
        _ => tag_at(
            s,
            i,
            b"<informazioni_versante>",
            4,
            Holds::Rows(Parent::InformazioniVersante(replaces)),
        ),
    }
}

// The line of a replacement order names the replaced one last: that tag is left to the general reader.
fn in_beneficiario_line(
    s: &[u8],
    i: usize,
    want: usize,
    replaces: bool,
) -> Option<(usize, usize, Holds)>
    requires { i ≤ length s.now }
    ensures { Seen (Parent.InformazioniBeneficiario replaces) s.now i result }
{
    match want {
        0 => tag_at(
            s,
            i,
            b"<progressivo_beneficiario>",
            0,
            Holds::Text(Form::Progressivo),
        ),
        1 => tag_at(
            s,
            i,
            b"<importo_beneficiario>",
            1,
            Holds::Text(Form::Importo),
        ),
        2 => tag_at(
            s,
            i,
            b"<beneficiario>",
            2,
            Holds::Rows(Parent::Beneficiario),
        ),
        _ => None,
    }
}

fn in_versante_line(
    s: &[u8],
    i: usize,
    want: usize,
    replaces: bool,
) -> Option<(usize, usize, Holds)>
    requires { i ≤ length s.now }
    ensures { Seen (Parent.InformazioniVersante replaces) s.now i result }
{
    match want {
        0 => tag_at(
            s,
            i,
            b"<progressivo_versante>",
            0,
            Holds::Text(Form::Progressivo),
        ),
        1 => tag_at(s, i, b"<importo_versante>", 1, Holds::Text(Form::Importo)),
        2 => tag_at(s, i, b"<versante>", 2, Holds::Rows(Parent::Versante)),
        _ => None,
    }
}

// The start tag at a position, where it is the one that the row `want` lets expect. (Nothing is promised of `Other`: it costs time, never an answer.)
pub fn expected(s: &[u8], i: usize, parent: Parent, want: usize) -> Option<(usize, usize, Holds)>
    requires { i ≤ length s.now }
    ensures { Seen parent s.now i result }
{
    match parent {
        Parent::FlussoOrdinativi => in_flusso(s, i, want),
        Parent::Mandato(r) => in_mandato(s, i, want, r),
        Parent::Reversale(r) => in_reversale(s, i, want, r),
        Parent::InformazioniBeneficiario(r) => in_beneficiario_line(s, i, want, r),
        Parent::InformazioniVersante(r) => in_versante_line(s, i, want, r),
        Parent::Beneficiario => tag_at(
            s,
            i,
            b"<anagrafica_beneficiario>",
            0,
            Holds::Text(Form::Anagrafica),
        ),
        Parent::Versante => tag_at(
            s,
            i,
            b"<anagrafica_versante>",
            0,
            Holds::Text(Form::Anagrafica),
        ),
        Parent::FlussoOpi => in_opi(s, i, want),
        Parent::TestataFlusso => header_at(s, i, want, Form::DataOraZona),
        _ => None,
    }
}
