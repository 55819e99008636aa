// Why a flow or an order is refused, in a sentence for the school: the rule of document 01, and for a field that breaks its name, its text,
// what is wrong with it and the form that document 01 asks of it.
#![tactic(auto)]

ghost use Rattle.std.specs.Counts.{IsPrefixLen};

use fields::{Form, Longest};
use printing::say;
use schema::{Holds, Parent};
use std::io;
use std::io::Write;

// What document 01's field table says of a form.
fn say_form<W: Write>(to: &mut W, f: Form) -> io::Result<()> {
    match f {
        Form::CodiceAbi => say(to, b"five digits"),
        Form::Identificativo => say(to, b"1 to 35 of letters, digits, - _ ."),
        Form::DataOra => say(
            to,
            b"YYYY-MM-DDThh:mm:ss, a real date of the years 2000 to 2099, hh 00 to 23, mm and ss 00 to 59",
        ),
        Form::CodiceEnte => say(to, b"1 to 16 letters and digits"),
        Form::Esercizio => say(to, b"four digits, 2000 to 2099"),
        Form::TipoOperazione => say(to, b"INSERIMENTO, VARIAZIONE, ANNULLO or SOSTITUZIONE"),
        Form::Numero => say(to, b"1 to 7 digits, value 1 to 9,999,999"),
        Form::Data => say(to, b"YYYY-MM-DD, a real date of the years 2000 to 2099"),
        Form::Importo => say(
            to,
            b"1 to 9 digits, a point, two digits; no zero in front unless it is the only digit there; no sign",
        ),
        Form::Progressivo => say(to, b"1 to 3 digits"),
        Form::Anagrafica => say(
            to,
            b"1 to 140 characters, each of the five references counting as one",
        ),
        Form::DataOraZona => say(
            to,
            b"YYYY-MM-DDThh:mm:ss as a flow's time, then Z or a sign and hh:mm to 23:59",
        ),
        Form::Testo => say(to, b"1 to 140 bytes"),
        Form::EsitoOperazione => say(
            to,
            b"ACQUISITO, VARIATO, ANNULLATO or SOSTITUITO, refused with NON in front",
        ),
        Form::CodiceErrore => say(to, b"two digits, the code of a refused order"),
        Form::Descrizione => say(to, b"the two digits of codice_errore again"),
        Form::Elemento => say(to, b"the name of the element that the code speaks of"),
    }
}

fn wanted_in(name: &[u8], parent: Parent) -> Option<Form> {
    let Some((_, holds)) = rows::spot_of(name, 0, name.len(), parent) else {
        return None;
    };
    match holds {
        Holds::Text(f) => Some(f),
        Holds::Rows(_) => None,
    }
}

// The parents that name fields.
const PARENTS: [Parent; 9] = [
    Parent::FlussoOrdinativi,
    Parent::Mandato(true),
    Parent::Reversale(true),
    Parent::InformazioniBeneficiario(true),
    Parent::InformazioniVersante(true),
    Parent::Beneficiario,
    Parent::Versante,
    Parent::SostituzioneMandato,
    Parent::SostituzioneReversale,
];

// The form that document 01 asks of an element, if it names it as a field. A name has one form, whichever parent names it.
fn wanted_of(name: &[u8]) -> Option<Form> {
    PARENTS.iter().find_map(|&parent| wanted_in(name, parent))
}

// Writes a text's first bytes into out, as far as there is room: how many bytes that is. A control character would spoil the line.
fn show(t: &[u8], out: &mut [u8]) -> usize
    ensures { IsPrefixLen result out.new }
{
    for (to, &b) in out.iter_mut().zip(t) {
        *to = if b.is_ascii_control() { b'.' } else { b };
    }
    t.len().min(out.len())
}

// A text between quotes, its first 160 bytes.
fn say_quoted<W: Write>(to: &mut W, t: &[u8]) -> io::Result<()> {
    let mut out = [0u8; 160];
    let n = show(t, &mut out);
    say(to, b"'")?;
    say(to, &out[..n])?;
    say(to, b"'")
}

// The longest text that a form allows.
fn say_longest<W: Write>(to: &mut W, f: Form) -> io::Result<()> {
    match fields::longest_of(f) {
        Longest::Bytes(n) => write!(to, " {n} bytes"),
        Longest::Characters(n) => write!(to, " {n} characters, each reference counting as one"),
    }
}

// What is wrong with a field, in document 02's words.
fn say_cause<W: Write>(to: &mut W, cause: u64, f: Form) -> io::Result<()> {
    match cause {
        1 => say(to, b": empty"),
        2 => {
            say(to, b": longer than the longest allowed text, of")?;
            say_longest(to, f)
        }
        3 => say(to, b": wrong form"),
        _ => say(to, b": right form but a value outside its range"),
    }
}

fn say_wanted<W: Write>(to: &mut W, name: &[u8], cause: u64) -> io::Result<()> {
    if let Some(f) = wanted_of(name) {
        say_cause(to, cause, f)?;
        say(to, b"; its form: ")?;
        say_form(to, f)?;
    }
    Ok(())
}

fn say_field<W: Write>(to: &mut W, flow: &[u8], place: u64, cause: u64) -> io::Result<()> {
    let name = children::name_at(flow, place as usize);
    say(to, b"  5, a field breaks: ")?;
    say(to, name)?;
    say(to, b" ")?;
    say_quoted(to, children::text_at(flow, place as usize))?;
    write!(to, " at byte {place}")?;
    say_wanted(to, name, cause)?;
    say(to, b"\n")
}

// The first 40 bytes from a place on.
fn say_from<W: Write>(to: &mut W, flow: &[u8], place: usize) -> io::Result<()> {
    if flow.len() <= place {
        return say(to, b", its end");
    }
    say(to, b", before ")?;
    let rest = &flow[place..];
    say_quoted(to, rest.get(..40).unwrap_or(rest))
}

fn say_markup<W: Write>(to: &mut W, flow: &[u8]) -> io::Result<()> {
    match markup::markup_of(flow, false) {
        Ok((_, _, _)) => Ok(()),
        Err(p) => {
            write!(to, "  3, the markup breaks at byte {p}")?;
            say_from(to, flow, p)?;
            say(to, b"\n")
        }
    }
}

// The markup stands here, so that a start tag is one: what stands nowhere is missing.
fn say_structure<W: Write>(to: &mut W, flow: &[u8]) -> io::Result<()> {
    say(
        to,
        b"  4, the structure breaks: an element of docs/FORMAT.md is missing, twice there or out of its order, or holds what it may not",
    )?;
    lacks::say_lacks(to, flow)?;
    say(to, b"\n")
}

// Why a flow is refused. (Of the table and the outcome buffer the school knows nothing.)
pub fn of_flow<W: Write>(
    to: &mut W,
    flow: &[u8],
    code: u64,
    place: u64,
    cause: u64,
) -> io::Result<()> {
    match code {
        0 => Ok(()),
        1 => say(to, b"  1, the table is not valid\n"),
        2 => say(to, b"  2, the flow is longer than 32,768 bytes\n"),
        3 => say_markup(to, flow),
        4 => say_structure(to, flow),
        5 => say_field(to, flow, place, cause),
        6 => say(
            to,
            b"  6, codice_ABI_BT is not the bank that this table is for\n",
        ),
        7 => say(
            to,
            b"  7, no body of this table has this codice_ente_BT: codes are compared byte by byte, zeros in front too\n",
        ),
        36 => say(
            to,
            b"  36, the body has closed this esercizio or a later one\n",
        ),
        _ => say(
            to,
            b"  8, the outcome buffer has under 16 bytes per order\n",
        ),
    }
}

// Why an order is refused.
pub fn of_order<W: Write>(to: &mut W, code: u8) -> io::Result<()> {
    match code {
        0 => Ok(()),
        12 => say(
            to,
            b"  12, the order's lines are not numbered 1, 2, 3 and so on\n",
        ),
        13 => say(
            to,
            b"  13, the order's line amounts do not sum to its total\n",
        ),
        14 => say(
            to,
            b"  14, the body already has an order of this kind, esercizio and number\n",
        ),
        15 => say(to, b"  15, the body has no empty slot\n"),
        16 => say(
            to,
            b"  16, the body has no order of this kind, esercizio and number\n",
        ),
        17 => say(to, b"  17, the order is annulled, and stays so\n"),
        18 => say(
            to,
            b"  18, a line of the order is executed, and has to be reversed first, or is replaced\n",
        ),
        19 => say(
            to,
            b"  19, ANNULLO: total, number of lines or a line amount differs from the record\n",
        ),
        24 => say(
            to,
            b"  24, SOSTITUZIONE: a line names a line that is not there\n",
        ),
        25 => say(
            to,
            b"  25, SOSTITUZIONE: a named line is not executed, or is replaced already\n",
        ),
        _ => say(to, b"  26, SOSTITUZIONE: a named line has another amount\n"),
    }
}
