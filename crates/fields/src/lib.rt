// The eleven forms of document 01's field table, and the six that an outcome message adds: each is read once, for its value, and where it has none for
// what is wrong.
#![tactic(auto)]

ghost use Rattle.std.specs.Prelude.{◌≡◌};
ghost use Rattle.fields.specs.Causes.{cause_number, longest, longer, formed, cause_of};
ghost use Rattle.fields.specs.Fields.{of_esito, field_value, reading_of, field_stands};

use calendar::Date;
use codes::{Esito, Operation};

#[derive(Clone, Copy)]
pub enum Judged {
    Stands,
    Breaks,
}

// Document 01's eleven forms, in its table's order; then those of an outcome message.
#[derive(Clone, Copy)]
pub enum Form {
    CodiceAbi,
    Identificativo,
    DataOra,
    CodiceEnte,
    Esercizio,
    TipoOperazione,
    Numero,
    Data,
    Importo,
    Progressivo,
    Anagrafica,
    DataOraZona,
    Testo,
    EsitoOperazione,
    CodiceErrore,
    Descrizione,
    Elemento,
}

// What a field's text says: a value of its form; of a text that stays bytes, that it has the form.
#[derive(Clone, Copy)]
pub enum Value {
    Text,
    Number(u64),
    Day(Date),
    Operation(Operation),
    Accepted(Operation),
    Refused(Operation),
}

// The longest text that a form allows, in bytes or, of a name, in characters as its form counts them.
#[derive(Clone, Copy)]
pub enum Longest {
    Bytes(usize),
    Characters(usize),
}

// What is wrong with a field's text, in the order in which a cause is told.
#[derive(Clone, Copy)]
pub enum Cause {
    Empty,
    Long,
    Misformed,
    OutOfRange,
}

// A cause's number in a flow's answer.
pub fn cause_number(c: Cause) -> u64
    ensures { result ≡ cause_number c }
{
    match c {
        Cause::Empty => 1,
        Cause::Long => 2,
        Cause::Misformed => 3,
        Cause::OutOfRange => 4,
    }
}

pub fn longest_of(f: Form) -> Longest
    ensures { result ≡ longest f }
{
    match f {
        Form::CodiceAbi => Longest::Bytes(bounds::ABI),
        Form::Identificativo => Longest::Bytes(35),
        Form::DataOra => Longest::Bytes(19),
        Form::CodiceEnte => Longest::Bytes(bounds::MAX_CODE),
        Form::Esercizio => Longest::Bytes(4),
        Form::TipoOperazione => Longest::Bytes(12),
        Form::Numero => Longest::Bytes(7),
        Form::Data => Longest::Bytes(10),
        Form::Importo => Longest::Bytes(12),
        Form::Progressivo => Longest::Bytes(3),
        Form::Anagrafica => Longest::Characters(140),
        Form::DataOraZona => Longest::Bytes(25),
        Form::Testo => Longest::Bytes(140),
        Form::EsitoOperazione => Longest::Bytes(14),
        Form::CodiceErrore => Longest::Bytes(2),
        Form::Descrizione => Longest::Bytes(2),
        Form::Elemento => Longest::Bytes(24),
    }
}

fn is_longer(l: Longest, t: &[u8]) -> bool
    ensures { result ≡ longer l t.now }
{
    match l {
        Longest::Bytes(n) => n < t.len(),
        Longest::Characters(n) => n < names::characters_of(t),
    }
}

// Whether a text that breaks has the form, whatever value it writes: where document 01 gives no range, it has not.
#[tactic(auto, using(crate::proofs::Told::broken_whole), unfolding(crate::specs::Causes::formed, crate::specs::Causes::in_range))]
fn is_formed(f: Form, t: &[u8]) -> bool
    requires { field_stands f t.now ≡ Judged.Breaks }
    ensures { result ≡ formed f t.now }
{
    match f {
        Form::DataOra => dates::data_ora_written(t),
        Form::Esercizio => digits::four_digits(t).is_some(),
        Form::Numero => digits::numero_written(t).is_some(),
        Form::Data => dates::data_written(t).is_some(),
        Form::DataOraZona => dates::data_ora_zona_written(t),
        Form::CodiceErrore => digits::two_digits(t).is_some(),
        _ => false,
    }
}

// What is wrong with a text that breaks: the first cause that applies.
#[tactic(auto, unfolding(crate::specs::Causes::cause_of))]
fn cause_of(f: Form, t: &[u8]) -> Cause
    requires { field_stands f t.now ≡ Judged.Breaks }
    ensures { result ≡ cause_of f t.now }
{
    if t.is_empty() {
        Cause::Empty
    } else if is_longer(longest_of(f), t) {
        Cause::Long
    } else if !is_formed(f, t) {
        Cause::Misformed
    } else {
        Cause::OutOfRange
    }
}

fn of_esito(e: Option<Esito>) -> Option<Value>
    ensures { result ≡ of_esito e }
{
    e.map(|esito| match esito {
        Esito::Accepted(o) => Value::Accepted(o),
        Esito::Refused(o) => Value::Refused(o),
    })
}

// The value that a field's text says by its form. A text that breaks is not asked for its cause here, so that the reading of texts that stand stays
// short enough to be compiled in place.
pub fn value_of(f: Form, t: &[u8]) -> Option<Value>
    ensures { result ≡ field_value f t.now }
{
    match f {
        Form::CodiceAbi => codes::codice_abi(t).then_some(Value::Text),
        Form::Identificativo => codes::identificativo_flusso(t).then_some(Value::Text),
        Form::DataOra => dates::data_ora(t).then_some(Value::Text),
        Form::CodiceEnte => codes::codice_ente(t).then_some(Value::Text),
        Form::Esercizio => digits::esercizio_of(t).map(Value::Number),
        Form::TipoOperazione => codes::tipo_operazione(t).map(Value::Operation),
        Form::Numero => digits::numero_of(t).map(Value::Number),
        Form::Data => dates::data_of(t).map(Value::Day),
        Form::Importo => digits::importo_of(t).map(Value::Number),
        Form::Progressivo => digits::progressivo_of(t).map(Value::Number),
        Form::Anagrafica => names::anagrafica_of(t).then_some(Value::Text),
        Form::DataOraZona => dates::data_ora_zona(t).then_some(Value::Text),
        Form::Testo => codes::sized_text(t, 1, 140).then_some(Value::Text),
        Form::EsitoOperazione => of_esito(codes::esito_operazione(t)),
        Form::CodiceErrore => digits::codice_errore(t).map(Value::Number),
        Form::Descrizione => codes::sized_text(t, 1, 2).then_some(Value::Text),
        Form::Elemento => codes::sized_text(t, 1, 24).then_some(Value::Text),
    }
}

// A field's text, read by its form: its value, or what is wrong with it.
#[tactic(auto, using(crate::proofs::Laws::none_breaks))]
pub fn field_of(f: Form, t: &[u8]) -> Result<Value, Cause>
    ensures { result ≡ reading_of f t.now }
{
    value_of(f, t).ok_or_else(|| cause_of(f, t))
}

// Whether a field's text has its form: it says a value.
#[tactic(auto, unfolding(crate::specs::Fields::field_stands))]
pub fn field_stands(f: Form, t: &[u8]) -> Judged
    ensures { result ≡ field_stands f t.now }
{
    if value_of(f, t).is_some() {
        Judged::Stands
    } else {
        Judged::Breaks
    }
}
