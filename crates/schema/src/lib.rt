// Document 01's structure table, with replacement lines, edition 2's header and outcome messages, as data; and where a name stands in the table of
// a flow's parent.
#![tactic(auto)]

ghost use Rattle.std.specs.Prelude.{◌≡◌, ◌≤◌, length, [], ◌∷◌};
ghost use Rattle.schema.specs.Table.{name_is, table, orders_row, spot_in};

use fields::Form;

// The parents of document 01's table, an order and a line of it each with whether the order replaces others; then those of outcome messages, and
// edition 2's root and header.
#[derive(Clone, Copy)]
pub enum Parent {
    FlussoOrdinativi,
    Mandato(bool),
    Reversale(bool),
    InformazioniBeneficiario(bool),
    InformazioniVersante(bool),
    SostituzioneMandato,
    SostituzioneReversale,
    Beneficiario,
    Versante,
    MessaggiEsito,
    TestataMessaggio,
    EsitoReversali,
    EsitoMandati,
    ErroriReversali,
    ErroriMandati,
    FlussoOpi,
    TestataFlusso,
}

// What a named child holds.
#[derive(Clone, Copy)]
pub enum Holds {
    Text(Form),
    Rows(Parent),
}

// Whether the name from a up to e is x.
#[tactic(auto, unfolding(crate::specs::Table::name_is))]
pub fn is(s: &[u8], a: usize, e: usize, x: &[u8]) -> bool
    requires { (a ≤ e) × (e ≤ length s.now) }
    ensures { result ≡ name_is x.now s.now a e }
{
    e - a == x.len() && scan::has(s, a, x)
}

// The row of a root that its orders stand in.
// Each parent has a look-up of its own, mandato and reversale too: with the names as rows of bytes a call of 64 orders took 957,770 instructions
// in place of 785,052 (docs/DECISIONS.md).
fn order_spot(s: &[u8], a: usize, e: usize, row: usize) -> Option<(usize, Holds)>
    requires { (a ≤ e) × (e ≤ length s.now) }
    ensures { result ≡ spot_in (orders_row ∷ []) row s.now a e }
{
    if is(s, a, e, b"mandato") {
        Some((row, Holds::Rows(Parent::Mandato(false))))
    } else if is(s, a, e, b"reversale") {
        Some((row, Holds::Rows(Parent::Reversale(false))))
    } else {
        None
    }
}

pub fn flusso_spot(s: &[u8], a: usize, e: usize) -> Option<(usize, Holds)>
    requires { (a ≤ e) × (e ≤ length s.now) }
    ensures { result ≡ spot_in (table Parent.FlussoOrdinativi) 0 s.now a e }
{
    if is(s, a, e, b"codice_ABI_BT") {
        Some((0, Holds::Text(Form::CodiceAbi)))
    } else if is(s, a, e, b"identificativo_flusso") {
        Some((1, Holds::Text(Form::Identificativo)))
    } else if is(s, a, e, b"data_ora_creazione_flusso") {
        Some((2, Holds::Text(Form::DataOra)))
    } else if is(s, a, e, b"codice_ente_BT") {
        Some((3, Holds::Text(Form::CodiceEnte)))
    } else if is(s, a, e, b"esercizio") {
        Some((4, Holds::Text(Form::Esercizio)))
    } else {
        order_spot(s, a, e, 5)
    }
}

pub fn mandato_spot(s: &[u8], a: usize, e: usize, replaces: bool) -> Option<(usize, Holds)>
    requires { (a ≤ e) × (e ≤ length s.now) }
    ensures { result ≡ spot_in (table (Parent.Mandato replaces)) 0 s.now a e }
{
    if is(s, a, e, b"tipo_operazione") {
        Some((0, Holds::Text(Form::TipoOperazione)))
    } else if is(s, a, e, b"numero_mandato") {
        Some((1, Holds::Text(Form::Numero)))
    } else if is(s, a, e, b"data_mandato") {
        Some((2, Holds::Text(Form::Data)))
    } else if is(s, a, e, b"importo_mandato") {
        Some((3, Holds::Text(Form::Importo)))
    } else if is(s, a, e, b"informazioni_beneficiario") {
        Some((4, Holds::Rows(Parent::InformazioniBeneficiario(replaces))))
    } else {
        None
    }
}

pub fn reversale_spot(s: &[u8], a: usize, e: usize, replaces: bool) -> Option<(usize, Holds)>
    requires { (a ≤ e) × (e ≤ length s.now) }
    ensures { result ≡ spot_in (table (Parent.Reversale replaces)) 0 s.now a e }
{
    if is(s, a, e, b"tipo_operazione") {
        Some((0, Holds::Text(Form::TipoOperazione)))
    } else if is(s, a, e, b"numero_reversale") {
        Some((1, Holds::Text(Form::Numero)))
    } else if is(s, a, e, b"data_reversale") {
        Some((2, Holds::Text(Form::Data)))
    } else if is(s, a, e, b"importo_reversale") {
        Some((3, Holds::Text(Form::Importo)))
    } else if is(s, a, e, b"informazioni_versante") {
        Some((4, Holds::Rows(Parent::InformazioniVersante(replaces))))
    } else {
        None
    }
}

pub fn informazioni_beneficiario_spot(
    s: &[u8],
    a: usize,
    e: usize,
    replaces: bool,
) -> Option<(usize, Holds)>
    requires { (a ≤ e) × (e ≤ length s.now) }
    ensures { result ≡ spot_in (table (Parent.InformazioniBeneficiario replaces)) 0 s.now a e }
{
    if is(s, a, e, b"progressivo_beneficiario") {
        Some((0, Holds::Text(Form::Progressivo)))
    } else if is(s, a, e, b"importo_beneficiario") {
        Some((1, Holds::Text(Form::Importo)))
    } else if is(s, a, e, b"beneficiario") {
        Some((2, Holds::Rows(Parent::Beneficiario)))
    } else if replaces && is(s, a, e, b"sostituzione_mandato") {
        Some((3, Holds::Rows(Parent::SostituzioneMandato)))
    } else {
        None
    }
}

pub fn sostituzione_mandato_spot(s: &[u8], a: usize, e: usize) -> Option<(usize, Holds)>
    requires { (a ≤ e) × (e ≤ length s.now) }
    ensures { result ≡ spot_in (table Parent.SostituzioneMandato) 0 s.now a e }
{
    if is(s, a, e, b"numero_mandato_da_sostituire") {
        Some((0, Holds::Text(Form::Numero)))
    } else if is(s, a, e, b"progressivo_beneficiario_da_sostituire") {
        Some((1, Holds::Text(Form::Progressivo)))
    } else if is(s, a, e, b"esercizio_mandato_da_sostituire") {
        Some((2, Holds::Text(Form::Esercizio)))
    } else {
        None
    }
}

pub fn informazioni_versante_spot(
    s: &[u8],
    a: usize,
    e: usize,
    replaces: bool,
) -> Option<(usize, Holds)>
    requires { (a ≤ e) × (e ≤ length s.now) }
    ensures { result ≡ spot_in (table (Parent.InformazioniVersante replaces)) 0 s.now a e }
{
    if is(s, a, e, b"progressivo_versante") {
        Some((0, Holds::Text(Form::Progressivo)))
    } else if is(s, a, e, b"importo_versante") {
        Some((1, Holds::Text(Form::Importo)))
    } else if is(s, a, e, b"versante") {
        Some((2, Holds::Rows(Parent::Versante)))
    } else if replaces && is(s, a, e, b"sostituzione_reversale") {
        Some((3, Holds::Rows(Parent::SostituzioneReversale)))
    } else {
        None
    }
}

pub fn sostituzione_reversale_spot(s: &[u8], a: usize, e: usize) -> Option<(usize, Holds)>
    requires { (a ≤ e) × (e ≤ length s.now) }
    ensures { result ≡ spot_in (table Parent.SostituzioneReversale) 0 s.now a e }
{
    if is(s, a, e, b"numero_reversale_da_sostituire") {
        Some((0, Holds::Text(Form::Numero)))
    } else if is(s, a, e, b"progressivo_versante_da_sostituire") {
        Some((1, Holds::Text(Form::Progressivo)))
    } else if is(s, a, e, b"esercizio_reversale_da_sostituire") {
        Some((2, Holds::Text(Form::Esercizio)))
    } else {
        None
    }
}

pub fn beneficiario_spot(s: &[u8], a: usize, e: usize) -> Option<(usize, Holds)>
    requires { (a ≤ e) × (e ≤ length s.now) }
    ensures { result ≡ spot_in (table Parent.Beneficiario) 0 s.now a e }
{
    if is(s, a, e, b"anagrafica_beneficiario") {
        Some((0, Holds::Text(Form::Anagrafica)))
    } else {
        None
    }
}

pub fn versante_spot(s: &[u8], a: usize, e: usize) -> Option<(usize, Holds)>
    requires { (a ≤ e) × (e ≤ length s.now) }
    ensures { result ≡ spot_in (table Parent.Versante) 0 s.now a e }
{
    if is(s, a, e, b"anagrafica_versante") {
        Some((0, Holds::Text(Form::Anagrafica)))
    } else {
        None
    }
}

pub fn opi_spot(s: &[u8], a: usize, e: usize) -> Option<(usize, Holds)>
    requires { (a ≤ e) × (e ≤ length s.now) }
    ensures { result ≡ spot_in (table Parent.FlussoOpi) 0 s.now a e }
{
    if is(s, a, e, b"testata_flusso") {
        Some((0, Holds::Rows(Parent::TestataFlusso)))
    } else if is(s, a, e, b"esercizio") {
        Some((1, Holds::Text(Form::Esercizio)))
    } else {
        order_spot(s, a, e, 2)
    }
}

pub fn testata_flusso_spot(s: &[u8], a: usize, e: usize) -> Option<(usize, Holds)>
    requires { (a ≤ e) × (e ≤ length s.now) }
    ensures { result ≡ spot_in (table Parent.TestataFlusso) 0 s.now a e }
{
    if is(s, a, e, b"codice_ABI_BT") {
        Some((0, Holds::Text(Form::CodiceAbi)))
    } else if is(s, a, e, b"identificativo_flusso") {
        Some((1, Holds::Text(Form::Identificativo)))
    } else if is(s, a, e, b"data_ora_creazione_flusso") {
        Some((2, Holds::Text(Form::DataOraZona)))
    } else if is(s, a, e, b"codice_ente_BT") {
        Some((3, Holds::Text(Form::CodiceEnte)))
    } else {
        None
    }
}
