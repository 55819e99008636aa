// Which elements of document 01's structure stand nowhere in a flow, said one after another.
#![tactic(auto)]

use std::io;
use std::io::Write;

const OF_HEADER: [&str; 7] = [
    "<flusso_ordinativi>",
    "<codice_ABI_BT>",
    "<identificativo_flusso>",
    "<data_ora_creazione_flusso>",
    "<codice_ente_BT>",
    "<esercizio>",
    "<tipo_operazione>",
];

const OF_MANDATO: [&str; 8] = [
    "<numero_mandato>",
    "<data_mandato>",
    "<importo_mandato>",
    "<informazioni_beneficiario>",
    "<progressivo_beneficiario>",
    "<importo_beneficiario>",
    "<beneficiario>",
    "<anagrafica_beneficiario>",
];

const OF_REVERSALE: [&str; 8] = [
    "<numero_reversale>",
    "<data_reversale>",
    "<importo_reversale>",
    "<informazioni_versante>",
    "<progressivo_versante>",
    "<importo_versante>",
    "<versante>",
    "<anagrafica_versante>",
];

// The structure of each line of an order that replaces others.
const REPLACING_MANDATO: [&str; 4] = [
    "<sostituzione_mandato>",
    "<numero_mandato_da_sostituire>",
    "<progressivo_beneficiario_da_sostituire>",
    "<esercizio_mandato_da_sostituire>",
];

const REPLACING_REVERSALE: [&str; 4] = [
    "<sostituzione_reversale>",
    "<numero_reversale_da_sostituire>",
    "<progressivo_versante_da_sostituire>",
    "<esercizio_reversale_da_sostituire>",
];

// Whether bytes begin with a text. By its places, up to the first that differs: most differ at once.
fn begins(flow: &[u8], text: &[u8]) -> bool {
    if flow.len() < text.len() {
        return false;
    }
    for i in 0..text.len() {
        if flow[i] != text[i] {
            return false;
        }
    }
    true
}

// Whether a text stands somewhere in a flow.
fn occurs(flow: &[u8], text: &str) -> bool {
    for i in 0..flow.len() {
        if begins(&flow[i..], text.as_bytes()) {
            return true;
        }
    }
    false
}

// Says which of these start tags stand nowhere in a flow.
fn say_absent<W: Write>(to: &mut W, flow: &[u8], tags: &[&str]) -> io::Result<()> {
    for &tag in tags {
        if !occurs(flow, tag) {
            write!(to, "; no {tag}")?;
        }
    }
    Ok(())
}

// The start tags that stand nowhere in a flow whose structure breaks, though a flow of mandati, of reversali or of both cannot do without them.
pub fn say_lacks<W: Write>(to: &mut W, flow: &[u8]) -> io::Result<()> {
    let mandati = occurs(flow, "<mandato>");
    let reversali = occurs(flow, "<reversale>");
    say_absent(to, flow, &OF_HEADER)?;
    if mandati {
        say_absent(to, flow, &OF_MANDATO)?;
    }
    if reversali {
        say_absent(to, flow, &OF_REVERSALE)?;
    }
    if !mandati && !reversali {
        write!(to, "; no <mandato> or <reversale>")?;
    }
    if occurs(flow, ">SOSTITUZIONE<") {
        if mandati && !reversali {
            say_absent(to, flow, &REPLACING_MANDATO)?;
        }
        if reversali && !mandati {
            say_absent(to, flow, &REPLACING_REVERSALE)?;
        }
    }
    Ok(())
}
