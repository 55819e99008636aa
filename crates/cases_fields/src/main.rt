// Each form of field at its edges. A line of the input is a form, a text and what documents 01 and 02 say of it, by hand: its value, or the cause;
// a line of the output has what the code says beside it.
#![tactic(auto)]

use casebook::{column, say};
use fields::{Cause, Form, Judged, Value};
use std::io;
use std::io::Write;

fn say_judged<W: Write>(to: &mut W, j: Judged) -> io::Result<()> {
    match j {
        Judged::Stands => say(to, b"stands"),
        Judged::Breaks => say(to, b"breaks"),
    }
}

fn say_value<W: Write>(to: &mut W, v: Value) -> io::Result<()> {
    match v {
        Value::Text => say(to, b"stands"),
        Value::Number(n) => write!(to, "stands {n}"),
        Value::Day(d) => write!(to, "stands {} {} {}", d.year, d.month, d.day),
        Value::Operation(o) => write!(to, "stands {}", codes::operation_number(o)),
        Value::Accepted(o) => write!(to, "stands accepted {}", codes::operation_number(o)),
        Value::Refused(o) => write!(to, "stands refused {}", codes::operation_number(o)),
    }
}

// A value, or the number of the cause.
fn say_reading<W: Write>(to: &mut W, r: Result<Value, Cause>) -> io::Result<()> {
    match r {
        Ok(v) => say_value(to, v),
        Err(c) => write!(to, "breaks {}", fields::cause_number(c)),
    }
}

// The form that a name stands for; any other name is a name's.
fn form_of(form: &[u8]) -> Form {
    match form {
        b"codice_ABI_BT" => Form::CodiceAbi,
        b"identificativo_flusso" => Form::Identificativo,
        b"data_ora_creazione_flusso" => Form::DataOra,
        b"codice_ente_BT" => Form::CodiceEnte,
        b"esercizio" => Form::Esercizio,
        b"tipo_operazione" => Form::TipoOperazione,
        b"numero" => Form::Numero,
        b"data" => Form::Data,
        b"importo" => Form::Importo,
        b"progressivo" => Form::Progressivo,
        b"data_ora_esito_operazione" => Form::DataOraZona,
        b"testo" => Form::Testo,
        b"esito_operazione" => Form::EsitoOperazione,
        b"codice_errore" => Form::CodiceErrore,
        b"descrizione" => Form::Descrizione,
        b"elemento" => Form::Elemento,
        _ => Form::Anagrafica,
    }
}

fn run_case<W: Write>(to: &mut W, line: &[u8]) -> io::Result<()> {
    let form = form_of(column(line, 0));
    let mut text = [0u8; 2048];
    let n = casebook::bytes(line, 1, &mut text);
    say(to, column(line, 0))?;
    say(to, b" \"")?;
    say(to, column(line, 1))?;
    say(to, b"\": ")?;
    say_reading(to, fields::field_of(form, &text[..n]))?;
    say(to, b", expected ")?;
    say(to, column(line, 2))?;
    say(to, b"; by its form it ")?;
    say_judged(to, fields::field_stands(form, &text[..n]))?;
    say(to, b"\n")
}

fn run_cases<W: Write>(to: &mut W, text: &[u8]) -> io::Result<()> {
    for line in casebook::lines_of(text) {
        run_case(to, line)?;
    }
    Ok(())
}

fn main(rt: HostRuntime) -> io::Result<()> {
    let mut input = [0u8; 65536];
    let n = casebook::read_full(&mut rt.stdin(), &mut input)?;
    run_cases(&mut rt.stdout(), &input[..n])
}
