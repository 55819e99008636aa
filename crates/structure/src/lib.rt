// The structure of a flow, as its walk asks it: which number of elements a row takes, and that a field holds no element.
#![tactic(auto)]

ghost use Rattle.std.specs.Prelude.{◌≡◌, ◌+◌, ◌≤◌, ◌<◌, length};
ghost use Rattle.markup.specs.Noted.{Noted};
ghost use Rattle.schema.specs.Table.{table};
ghost use Rattle.structure.specs.Structure.{ranges, allows, text_only};
ghost use Rattle.structure.specs.Walk.{paired, filled_from, all_one, counted_of};

use schema::Parent;

// HOW MANY elements each row of a parent takes: for each row the least and the most.
const FLUSSO_ORDINATIVI: [u8; 12] = *b"\x01\x01\x01\x01\x01\x01\x01\x01\x01\x01\x01\x40";

const MANDATO: [u8; 10] = *b"\x01\x01\x01\x01\x01\x01\x01\x01\x01\x08";

const REVERSALE: [u8; 10] = *b"\x01\x01\x01\x01\x01\x01\x01\x01\x01\x08";

// A line of either kind, and one of an order that replaces others.
const LINE: [u8; 6] = *b"\x01\x01\x01\x01\x01\x01";

const LINE_REPLACING: [u8; 8] = *b"\x01\x01\x01\x01\x01\x01\x01\x01";

const SOSTITUZIONE: [u8; 6] = *b"\x01\x01\x01\x01\x01\x01";

const BENEFICIARIO: [u8; 2] = *b"\x01\x01";

const VERSANTE: [u8; 2] = *b"\x01\x01";

const MESSAGGI_ESITO: [u8; 8] = *b"\x01\x01\x01\x01\x00\x40\x00\x40";

const TESTATA_MESSAGGIO: [u8; 18] =
    *b"\x01\x01\x01\x01\x01\x01\x01\x01\x00\x01\x01\x01\x01\x01\x01\x01\x01\x01";

const ESITO_REVERSALI: [u8; 18] =
    *b"\x01\x01\x01\x01\x01\x01\x00\x00\x01\x01\x01\x01\x01\x01\x01\x01\x00\x01";

const ESITO_MANDATI: [u8; 18] =
    *b"\x01\x01\x01\x01\x01\x01\x00\x00\x01\x01\x01\x01\x01\x01\x01\x01\x00\x01";

const ERRORI_REVERSALI: [u8; 8] = *b"\x00\x00\x01\x01\x01\x01\x01\x01";

const ERRORI_MANDATI: [u8; 8] = *b"\x00\x00\x01\x01\x01\x01\x01\x01";

const FLUSSO_OPI: [u8; 6] = *b"\x01\x01\x01\x01\x01\x40";

const TESTATA_FLUSSO: [u8; 8] = *b"\x01\x01\x01\x01\x01\x01\x01\x01";

// Whether n elements may stand in a row, where the least and the most of each row are a pair of bytes.
fn row_allows(row: usize, n: usize, pairs: &[u8]) -> bool
    ensures { result ≡ allows (paired pairs.now) row n }
{
    row < pairs.len() / 2
        && usize::from(pairs[2 * row]) <= n
        && n <= usize::from(pairs[2 * row + 1])
}

// A line has three rows, and a fourth where its order replaces others.
fn line_rows(replaces: bool) -> usize
    ensures { result ≡ length (ranges (table (Parent.InformazioniBeneficiario replaces))) }
{
    if replaces { 4 } else { 3 }
}

pub fn rows(parent: Parent) -> usize
    ensures { result ≡ length (ranges (table parent)) }
{
    match parent {
        Parent::FlussoOrdinativi => 6,
        Parent::Mandato(_) | Parent::Reversale(_) => 5,
        Parent::InformazioniBeneficiario(r) | Parent::InformazioniVersante(r) => line_rows(r),
        Parent::SostituzioneMandato | Parent::SostituzioneReversale | Parent::FlussoOpi => 3,
        Parent::Beneficiario | Parent::Versante => 1,
        Parent::TestataMessaggio | Parent::EsitoReversali | Parent::EsitoMandati => 9,
        Parent::MessaggiEsito
        | Parent::ErroriReversali
        | Parent::ErroriMandati
        | Parent::TestataFlusso => 4,
    }
}

// Whether `to` is no earlier row than `row`, and the rows from that, with n elements so far, up to `to` have what they take.
fn filled_in(row: usize, n: usize, to: usize, pairs: &[u8]) -> bool
    ensures { result ≡ filled_from (paired pairs.now) row n to }
{
    if to < row {
        return false;
    }
    let mut m = n;
    for i in row..to {
        if !row_allows(i, m, pairs) {
            return false;
        }
        m = 0;
    }
    true
}

// The same of a line's rows, which are alike for both kinds.
fn line_filled(row: usize, n: usize, to: usize, replaces: bool) -> bool
    ensures { result ≡ filled_from (ranges (table (Parent.InformazioniBeneficiario replaces))) row n to }
{
    if replaces {
        filled_in(row, n, to, &LINE_REPLACING)
    } else {
        filled_in(row, n, to, &LINE)
    }
}

// The same of the parent's rows.
pub fn filled(parent: Parent, row: usize, n: usize, to: usize) -> bool
    ensures { result ≡ filled_from (ranges (table parent)) row n to }
{
    match parent {
        Parent::FlussoOrdinativi => filled_in(row, n, to, &FLUSSO_ORDINATIVI),
        Parent::Mandato(_) => filled_in(row, n, to, &MANDATO),
        Parent::Reversale(_) => filled_in(row, n, to, &REVERSALE),
        Parent::InformazioniBeneficiario(r) | Parent::InformazioniVersante(r) => {
            line_filled(row, n, to, r)
        }
        Parent::SostituzioneMandato | Parent::SostituzioneReversale => {
            filled_in(row, n, to, &SOSTITUZIONE)
        }
        Parent::Beneficiario => filled_in(row, n, to, &BENEFICIARIO),
        Parent::Versante => filled_in(row, n, to, &VERSANTE),
        Parent::MessaggiEsito => filled_in(row, n, to, &MESSAGGI_ESITO),
        Parent::TestataMessaggio => filled_in(row, n, to, &TESTATA_MESSAGGIO),
        Parent::EsitoReversali => filled_in(row, n, to, &ESITO_REVERSALI),
        Parent::EsitoMandati => filled_in(row, n, to, &ESITO_MANDATI),
        Parent::ErroriReversali => filled_in(row, n, to, &ERRORI_REVERSALI),
        Parent::ErroriMandati => filled_in(row, n, to, &ERRORI_MANDATI),
        Parent::FlussoOpi => filled_in(row, n, to, &FLUSSO_OPI),
        Parent::TestataFlusso => filled_in(row, n, to, &TESTATA_FLUSSO),
    }
}

// Whether each row of a parent takes one element.
fn ones(parent: Parent) -> bool
    ensures { result ≡ all_one (ranges (table parent)) }
{
    !matches!(
        parent,
        Parent::EsitoReversali
            | Parent::EsitoMandati
            | Parent::ErroriReversali
            | Parent::ErroriMandati
    )
}

// As `filled`, for a row of the parent: mostly one more element of the row follows, or one of the next row after one, and no row need be looked at.
pub fn in_turn(parent: Parent, row: usize, n: usize, to: usize) -> bool
    requires { row < length (ranges (table parent)) }
    ensures { result ≡ filled_from (ranges (table parent)) row n to }
{
    to == row || row < to && to - row == 1 && n == 1 && ones(parent) || filled(parent, row, n, to)
}

// How many elements of row `to` there are with one more, after n of `row`.
#[tactic(auto, unfolding(crate::specs::Walk::counted_of))]
pub fn counted(row: usize, n: usize, to: usize) -> usize
    requires { n < 18446744073709551615 }
    ensures { result ≡ counted_of row n to }
{
    if to == row { n + 1 } else { 1 }
}

// Whether content holds no element.
pub fn text_only(s: &[u8], at: usize, past: &[u32]) -> bool
    requires { (at ≤ length s.now) × Noted s.now past.now }
    ensures { result ≡ text_only s.now at }
{
    children::child_at(s, scan::white_end(s, at), past).is_none()
}
