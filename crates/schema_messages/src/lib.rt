// Where a name stands in the table of an outcome message's parent.
#![tactic(auto)]

ghost use Rattle.std.specs.Prelude.{◌≡◌, true, ◌≤◌, length, drop};
ghost use Rattle.schema.specs.Table.{table, entry_end, error_end, spot_in};
ghost use Rattle.schema_messages.specs.Inner.{of_message};

use fields::Form;
use schema::{Holds, Parent};

fn messaggi_spot(s: &[u8], a: usize, e: usize) -> Option<(usize, Holds)>
    requires { (a ≤ e) × (e ≤ length s.now) }
    ensures { result ≡ spot_in (table Parent.MessaggiEsito) 0 s.now a e }
{
    if schema::is(s, a, e, b"testata_messaggio") {
        Some((0, Holds::Rows(Parent::TestataMessaggio)))
    } else if schema::is(s, a, e, b"identificativo_flusso_BT") {
        Some((1, Holds::Text(Form::Testo)))
    } else if schema::is(s, a, e, b"esito_reversali") {
        Some((2, Holds::Rows(Parent::EsitoReversali)))
    } else if schema::is(s, a, e, b"esito_mandati") {
        Some((3, Holds::Rows(Parent::EsitoMandati)))
    } else {
        None
    }
}

fn testata_spot(s: &[u8], a: usize, e: usize) -> Option<(usize, Holds)>
    requires { (a ≤ e) × (e ≤ length s.now) }
    ensures { result ≡ spot_in (table Parent.TestataMessaggio) 0 s.now a e }
{
    if schema::is(s, a, e, b"codice_ABI_BT") {
        Some((0, Holds::Text(Form::CodiceAbi)))
    } else if schema::is(s, a, e, b"data_ora_creazione_flusso") {
        Some((1, Holds::Text(Form::DataOraZona)))
    } else if schema::is(s, a, e, b"codice_ente") {
        Some((2, Holds::Text(Form::Testo)))
    } else if schema::is(s, a, e, b"descrizione_ente") {
        Some((3, Holds::Text(Form::Testo)))
    } else if schema::is(s, a, e, b"codice_istat_ente") {
        Some((4, Holds::Text(Form::Testo)))
    } else {
        testata_end(s, a, e)
    }
}

fn testata_end(s: &[u8], a: usize, e: usize) -> Option<(usize, Holds)>
    requires { (a ≤ e) × (e ≤ length s.now) }
    ensures { result ≡ spot_in (drop 5 (table Parent.TestataMessaggio)) 5 s.now a e }
{
    if schema::is(s, a, e, b"codice_fiscale_ente") {
        Some((5, Holds::Text(Form::Testo)))
    } else if schema::is(s, a, e, b"codice_tramite_ente") {
        Some((6, Holds::Text(Form::Testo)))
    } else if schema::is(s, a, e, b"codice_tramite_BT") {
        Some((7, Holds::Text(Form::Testo)))
    } else if schema::is(s, a, e, b"codice_ente_BT") {
        Some((8, Holds::Text(Form::CodiceEnte)))
    } else {
        None
    }
}

// The rows that follow the date in an entry of either kind.
fn entry_end(s: &[u8], a: usize, e: usize, errors: Parent) -> Option<(usize, Holds)>
    requires { (a ≤ e) × (e ≤ length s.now) }
    ensures { result ≡ spot_in (entry_end errors) 5 s.now a e }
{
    if schema::is(s, a, e, b"importo") {
        Some((5, Holds::Text(Form::Importo)))
    } else if schema::is(s, a, e, b"esito_operazione") {
        Some((6, Holds::Text(Form::EsitoOperazione)))
    } else if schema::is(s, a, e, b"data_ora_esito_operazione") {
        Some((7, Holds::Text(Form::DataOraZona)))
    } else if schema::is(s, a, e, b"lista_errori") {
        Some((8, Holds::Rows(errors)))
    } else {
        None
    }
}

fn esito_reversali_spot(s: &[u8], a: usize, e: usize) -> Option<(usize, Holds)>
    requires { (a ≤ e) × (e ≤ length s.now) }
    ensures { result ≡ spot_in (table Parent.EsitoReversali) 0 s.now a e }
{
    if schema::is(s, a, e, b"identificativo_flusso") {
        Some((0, Holds::Text(Form::Identificativo)))
    } else if schema::is(s, a, e, b"esercizio") {
        Some((1, Holds::Text(Form::Esercizio)))
    } else if schema::is(s, a, e, b"numero_reversale") {
        Some((2, Holds::Text(Form::Numero)))
    } else if schema::is(s, a, e, b"progressivo_versante") {
        Some((3, Holds::Text(Form::Progressivo)))
    } else if schema::is(s, a, e, b"data_reversale") {
        Some((4, Holds::Text(Form::Data)))
    } else {
        entry_end(s, a, e, Parent::ErroriReversali)
    }
}

fn esito_mandati_spot(s: &[u8], a: usize, e: usize) -> Option<(usize, Holds)>
    requires { (a ≤ e) × (e ≤ length s.now) }
    ensures { result ≡ spot_in (table Parent.EsitoMandati) 0 s.now a e }
{
    if schema::is(s, a, e, b"identificativo_flusso") {
        Some((0, Holds::Text(Form::Identificativo)))
    } else if schema::is(s, a, e, b"esercizio") {
        Some((1, Holds::Text(Form::Esercizio)))
    } else if schema::is(s, a, e, b"numero_mandato") {
        Some((2, Holds::Text(Form::Numero)))
    } else if schema::is(s, a, e, b"progressivo_beneficiario") {
        Some((3, Holds::Text(Form::Progressivo)))
    } else if schema::is(s, a, e, b"data_mandato") {
        Some((4, Holds::Text(Form::Data)))
    } else {
        entry_end(s, a, e, Parent::ErroriMandati)
    }
}

// The rows that follow the progressivo in a list of errors.
fn error_end(s: &[u8], a: usize, e: usize) -> Option<(usize, Holds)>
    requires { (a ≤ e) × (e ≤ length s.now) }
    ensures { result ≡ spot_in error_end 1 s.now a e }
{
    if schema::is(s, a, e, b"codice_errore") {
        Some((1, Holds::Text(Form::CodiceErrore)))
    } else if schema::is(s, a, e, b"descrizione") {
        Some((2, Holds::Text(Form::Descrizione)))
    } else if schema::is(s, a, e, b"elemento") {
        Some((3, Holds::Text(Form::Elemento)))
    } else {
        None
    }
}

fn errori_reversali_spot(s: &[u8], a: usize, e: usize) -> Option<(usize, Holds)>
    requires { (a ≤ e) × (e ≤ length s.now) }
    ensures { result ≡ spot_in (table Parent.ErroriReversali) 0 s.now a e }
{
    if schema::is(s, a, e, b"progressivo_versante") {
        Some((0, Holds::Text(Form::Progressivo)))
    } else {
        error_end(s, a, e)
    }
}

fn errori_mandati_spot(s: &[u8], a: usize, e: usize) -> Option<(usize, Holds)>
    requires { (a ≤ e) × (e ≤ length s.now) }
    ensures { result ≡ spot_in (table Parent.ErroriMandati) 0 s.now a e }
{
    if schema::is(s, a, e, b"progressivo_beneficiario") {
        Some((0, Holds::Text(Form::Progressivo)))
    } else {
        error_end(s, a, e)
    }
}

// Where a name stands in the table of an outcome message's parent. A function of its own, called from many places, so that the lookup of a flow's names
// stays short enough to be compiled in place.
pub fn message_spot(s: &[u8], a: usize, e: usize, parent: Parent) -> Option<(usize, Holds)>
    requires { (a ≤ e) × (e ≤ length s.now) × (of_message parent ≡ true) }
    ensures { result ≡ spot_in (table parent) 0 s.now a e }
{
    match parent {
        Parent::MessaggiEsito => messaggi_spot(s, a, e),
        Parent::TestataMessaggio => testata_spot(s, a, e),
        Parent::EsitoReversali => esito_reversali_spot(s, a, e),
        Parent::EsitoMandati => esito_mandati_spot(s, a, e),
        Parent::ErroriReversali => errori_reversali_spot(s, a, e),
        Parent::ErroriMandati => errori_mandati_spot(s, a, e),
        _ => None,
    }
}
