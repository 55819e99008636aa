// The forms whose text stays bytes: the two codes, the identifier of a flow, and the words of tipo_operazione and esito_operazione. Nothing here makes
// a number.
#![tactic(auto)]

ghost use Rattle.std.specs.Prelude.{◌≡◌, map};
ghost use Rattle.codes.specs.Inner.{operation_by};
ghost use Rattle.codes.specs.Codes.{codice_abi, identificativo, codice_ente, tipo_operazione, is_asked, operation_number, length_in, accepted_word, refused_word, esito_operazione, is_word};

use ranges::Class;

#[derive(Clone, Copy)]
pub enum Operation {
    Inserimento,
    Variazione,
    Annullo,
    Sostituzione,
}

// The outcome of an operation, as an outcome message says it.
#[derive(Clone, Copy)]
pub enum Esito {
    Accepted(Operation),
    Refused(Operation),
}

// An operation's number in the outcome bytes.
pub fn operation_number(o: Operation) -> u8
    ensures { result ≡ operation_number o }
{
    match o {
        Operation::Inserimento => 1,
        Operation::Variazione => 2,
        Operation::Annullo => 3,
        Operation::Sostituzione => 4,
    }
}

// codice_ABI_BT
#[tactic(auto, using(crate::proofs::Laws::all_whole), unfolding(crate::specs::Codes::codice_abi))]
pub fn codice_abi(t: &[u8]) -> bool
    ensures { result ≡ codice_abi t.now }
{
    t.len() == bounds::ABI && ranges::are_of(t, 0, t.len(), Class::Digits)
}

// identificativo_flusso
#[tactic(auto, using(crate::proofs::Laws::all_whole), unfolding(crate::specs::Codes::identificativo))]
pub fn identificativo_flusso(t: &[u8]) -> bool
    ensures { result ≡ identificativo t.now }
{
    matches!(t.len(), 1..=35) && ranges::are_of(t, 0, t.len(), Class::Identifying)
}

// codice_ente_BT
#[tactic(auto, using(crate::proofs::Laws::all_whole), unfolding(crate::specs::Codes::codice_ente))]
pub fn codice_ente(t: &[u8]) -> bool
    ensures { result ≡ codice_ente t.now }
{
    matches!(t.len(), 1..=bounds::MAX_CODE) && ranges::are_of(t, 0, t.len(), Class::Alphanumeric)
}

// The operation whose word t is, of the words for INSERIMENTO, VARIAZIONE, ANNULLO and SOSTITUZIONE. It is inlined so that each comparison is with a
// constant: each order is read through it.
#[inline(always)]
#[tactic(auto, unfolding(crate::specs::Inner::operation_by))]
fn operation_of(t: &[u8], words: &[&[u8]; 4]) -> Option<Operation>
    ensures { result ≡ operation_by (map (λ w. w.now) words.now) t.now }
{
    let [inserimento, variazione, annullo, sostituzione] = *words;
    if scan::same(t, inserimento) {
        Some(Operation::Inserimento)
    } else if scan::same(t, variazione) {
        Some(Operation::Variazione)
    } else if scan::same(t, annullo) {
        Some(Operation::Annullo)
    } else if scan::same(t, sostituzione) {
        Some(Operation::Sostituzione)
    } else {
        None
    }
}

#[tactic(auto, unfolding(crate::specs::Inner::operation_by, crate::specs::Codes::tipo_operazione))]
pub fn tipo_operazione(t: &[u8]) -> Option<Operation>
    ensures { result ≡ tipo_operazione t.now }
{
    operation_of(
        t,
        &[b"INSERIMENTO", b"VARIAZIONE", b"ANNULLO", b"SOSTITUZIONE"],
    )
}

pub fn is_asked(a: Option<Operation>) -> bool
    ensures { result ≡ is_asked a }
{
    a.is_some()
}

// A text of lo to hi bytes.
#[tactic(auto, unfolding(crate::specs::Codes::length_in))]
pub fn sized_text(t: &[u8], lo: usize, hi: usize) -> bool
    ensures { result ≡ length_in lo hi t.now }
{
    (lo..=hi).contains(&t.len())
}

#[tactic(auto, unfolding(crate::specs::Inner::operation_by, crate::specs::Codes::accepted_word))]
fn accepted_word(t: &[u8]) -> Option<Operation>
    ensures { result ≡ accepted_word t.now }
{
    operation_of(t, &[b"ACQUISITO", b"VARIATO", b"ANNULLATO", b"SOSTITUITO"])
}

#[tactic(auto, unfolding(crate::specs::Inner::operation_by, crate::specs::Codes::refused_word))]
fn refused_word(t: &[u8]) -> Option<Operation>
    ensures { result ≡ refused_word t.now }
{
    operation_of(
        t,
        &[
            b"NON ACQUISITO",
            b"NON VARIATO",
            b"NON ANNULLATO",
            b"NON SOSTITUITO",
        ],
    )
}

// esito_operazione
#[tactic(auto, unfolding(crate::specs::Codes::esito_operazione))]
pub fn esito_operazione(t: &[u8]) -> Option<Esito>
    ensures { result ≡ esito_operazione t.now }
{
    accepted_word(t)
        .map(Esito::Accepted)
        .or_else(|| refused_word(t).map(Esito::Refused))
}

pub fn is_word(e: Option<Esito>) -> bool
    ensures { result ≡ is_word e }
{
    e.is_some()
}
