// The parts of an outcome message, written from their values: its header, and an entry. Texts are lent as slices, so that they may be a caller's, or parts
// of a flow or of a message.
#![tactic(auto)]

ghost use Rattle.scan.specs.Bytes.{bytes};
ghost use Rattle.tree.specs.Tree.{tree, holds, none};
ghost use Rattle.tree.specs.Written.{node};
ghost use Rattle.pen.specs.Pen.{Wrote, Room, tagged};
ghost use Rattle.pen.specs.Decimal.{decimal, dated};
ghost use Rattle.message.specs.Message.{accepted_as, refused_as, number_name, date_name, element_name};
ghost use Rattle.message.specs.Written.{error_out, entry_out, istat_out};
ghost use Rattle.message_pen.specs.Parts.{RoomFor, WroteAll, RoomOf, WroteTree, by_kind, words_for, entry_name, entry_with, named_out, order_out, outcome_out, text_at, Lies, GivenIn, head_first, head_last, head_in, beginning_in};

use calendar::Date;
use codes::Operation;
use header::Span;

// What an entry says but for its texts. Kind: 1 mandato, 2 reversale. Code: 0, or that of the refusal.
#[derive(Clone, Copy)]
pub struct Saying {
    pub kind: u8,
    pub operation: Operation,
    pub code: u64,
    pub esercizio: u64,
    pub number: u64,
    pub date: Date,
    pub total: u64,
}

// Where the texts of a header stand in its writer's bytes, but for the two codes of the flow; and identificativo_flusso_BT, which follows it.
#[derive(Clone, Copy)]
pub struct Given {
    pub created: Span,
    pub ente: Span,
    pub described: Span,
    pub istat: Span,
    pub fiscal: Span,
    pub tramite: Span,
    pub bank: Span,
    pub flow: Span,
}

// The outcome's word for an operation.
fn word(m: &mut [u8], at: usize, o: Operation) -> usize
    requires { Room at (bytes (accepted_as o)) }
    ensures { Wrote m.old m.new at (bytes (accepted_as o)) result }
{
    match o {
        Operation::Inserimento => pen::ink(m, at, b"ACQUISITO"),
        Operation::Variazione => pen::ink(m, at, b"VARIATO"),
        Operation::Annullo => pen::ink(m, at, b"ANNULLATO"),
        Operation::Sostituzione => pen::ink(m, at, b"SOSTITUITO"),
    }
}

fn accepted_word(m: &mut [u8], at: usize, o: Operation) -> usize
    requires { Room at (tagged (bytes "esito_operazione") (bytes (accepted_as o))) }
    ensures { Wrote m.old m.new at (tagged (bytes "esito_operazione") (bytes (accepted_as o))) result }
{
    let a = pen::open_tag(m, at, b"esito_operazione");
    let b = word(m, a, o);
    pen::close_tag(m, b, b"esito_operazione")
}

// NON before it.
fn refused_word(m: &mut [u8], at: usize, o: Operation) -> usize
    requires { Room at (tagged (bytes "esito_operazione") (bytes (refused_as o))) }
    ensures { Wrote m.old m.new at (tagged (bytes "esito_operazione") (bytes (refused_as o))) result }
{
    let a = pen::open_tag(m, at, b"esito_operazione");
    let b = pen::ink(m, a, b"NON ");
    let c = word(m, b, o);
    pen::close_tag(m, c, b"esito_operazione")
}

// The name of the element that has the error: the flow's, by the order's kind.
fn kind_element(m: &mut [u8], at: usize, kind: u8, mandato: &[u8], reversale: &[u8]) -> usize
    requires { Room at (tagged (bytes "elemento") (by_kind kind mandato.now reversale.now)) }
    ensures { Wrote m.old m.new at (tagged (bytes "elemento") (by_kind kind mandato.now reversale.now)) result }
{
    if kind == 2 {
        pen::leaf(m, at, b"elemento", reversale)
    } else {
        pen::leaf(m, at, b"elemento", mandato)
    }
}

fn element(m: &mut [u8], at: usize, kind: u8, code: u64) -> usize
    requires { Room at (tagged (bytes "elemento") (bytes (element_name (words_for kind) code))) }
    ensures { Wrote m.old m.new at (tagged (bytes "elemento") (bytes (element_name (words_for kind) code))) result }
{
    match code {
        11 => pen::leaf(m, at, b"elemento", b"tipo_operazione"),
        12 => kind_element(
            m,
            at,
            kind,
            b"progressivo_beneficiario",
            b"progressivo_versante",
        ),
        13 | 19 => kind_element(m, at, kind, b"importo_mandato", b"importo_reversale"),
        _ => kind_element(m, at, kind, b"numero_mandato", b"numero_reversale"),
    }
}

// What is wrong with a refused order.
fn error(m: &mut [u8], at: usize, kind: u8, code: u64) -> usize
    requires { RoomOf at (node "lista_errori" (error_out (words_for kind) code)) }
    ensures { WroteTree m.old m.new at (node "lista_errori" (error_out (words_for kind) code)) result }
{
    let a = pen::open_tag(m, at, b"lista_errori");
    let b = pen::fixed_leaf(m, a, b"codice_errore", code, 2);
    let c = pen::fixed_leaf(m, b, b"descrizione", code, 2);
    let d = element(m, c, kind, code);
    pen::close_tag(m, d, b"lista_errori")
}

fn number(m: &mut [u8], at: usize, kind: u8, n: u64) -> usize
    requires { Room at (tagged (bytes (number_name (words_for kind))) (decimal n)) }
    ensures { Wrote m.old m.new at (tagged (bytes (number_name (words_for kind))) (decimal n)) result }
{
    if kind == 2 {
        pen::number_leaf(m, at, b"numero_reversale", n)
    } else {
        pen::number_leaf(m, at, b"numero_mandato", n)
    }
}

fn date(m: &mut [u8], at: usize, kind: u8, d: Date) -> usize
    requires { Room at (tagged (bytes (date_name (words_for kind))) (dated d)) }
    ensures { Wrote m.old m.new at (tagged (bytes (date_name (words_for kind))) (dated d)) result }
{
    if kind == 2 {
        pen::date_leaf(m, at, b"data_reversale", d)
    } else {
        pen::date_leaf(m, at, b"data_mandato", d)
    }
}

// An entry's flow and esercizio.
fn named(m: &mut [u8], at: usize, flow: &[u8], year: u64) -> usize
    requires { RoomFor at (named_out flow.now year) }
    ensures { WroteAll m.old m.new at (named_out flow.now year) result }
{
    let a = pen::leaf(m, at, b"identificativo_flusso", flow);
    pen::fixed_leaf(m, a, b"esercizio", year, 4)
}

// Its order's number, date and amount.
fn order(m: &mut [u8], at: usize, v: Saying) -> usize
    requires { RoomFor at (order_out v) }
    ensures { WroteAll m.old m.new at (order_out v) result }
{
    let a = number(m, at, v.kind, v.number);
    let b = date(m, a, v.kind, v.date);
    pen::amount_leaf(m, b, b"importo", v.total)
}

// Its outcome: the word, the time, and where it was refused the error.
fn outcome(m: &mut [u8], at: usize, v: Saying, time: &[u8]) -> usize
    requires { RoomFor at (outcome_out v time.now) }
    ensures { WroteAll m.old m.new at (outcome_out v time.now) result }
{
    let o = v.operation;
    if v.code == 0 {
        let a = accepted_word(m, at, o);
        return pen::leaf(m, a, b"data_ora_esito_operazione", time);
    }
    let b = refused_word(m, at, o);
    let c = pen::leaf(m, b, b"data_ora_esito_operazione", time);
    error(m, c, v.kind, v.code)
}

fn entry_named(m: &mut [u8], at: usize, name: &[u8], v: Saying, flow: &[u8], time: &[u8]) -> usize
    requires { RoomOf at (tree 0 name.now (holds (entry_out (words_for v.kind) (entry_with v flow.now time.now)))) }
    ensures { WroteTree m.old m.new at
        (tree 0 name.now (holds (entry_out (words_for v.kind) (entry_with v flow.now time.now)))) result }
{
    let a = pen::open_tag(m, at, name);
    let b = named(m, a, flow, v.esercizio);
    let c = order(m, b, v);
    let d = outcome(m, c, v, time);
    pen::close_tag(m, d, name)
}

// An entry.
pub fn entry(m: &mut [u8], at: usize, v: Saying, flow: &[u8], time: &[u8]) -> usize
    requires { RoomOf at (node (entry_name v.kind) (entry_out (words_for v.kind) (entry_with v flow.now time.now))) }
    ensures { WroteTree m.old m.new at
        (node (entry_name v.kind) (entry_out (words_for v.kind) (entry_with v flow.now time.now))) result }
{
    if v.kind == 2 {
        entry_named(m, at, b"esito_reversali", v, flow, time)
    } else {
        entry_named(m, at, b"esito_mandati", v, flow, time)
    }
}

// <name>text</name>, of a text where it stands.
fn leaf_at(m: &mut [u8], at: usize, name: &[u8], s: &[u8], w: Span) -> usize
    requires { Lies s.now w × Room at (tagged name.now (text_at s.now w)) }
    ensures { Wrote m.old m.new at (tagged name.now (text_at s.now w)) result }
{
    pen::leaf(m, at, name, header::part_at(s, w))
}

fn head_first(m: &mut [u8], at: usize, abi: &[u8], s: &[u8], g: Given) -> usize
    requires { GivenIn s.now g × RoomFor at (head_first abi.now s.now g) }
    ensures { WroteAll m.old m.new at (head_first abi.now s.now g) result }
{
    let a = pen::leaf(m, at, b"codice_ABI_BT", abi);
    let b = leaf_at(m, a, b"data_ora_creazione_flusso", s, g.created);
    let c = leaf_at(m, b, b"codice_ente", s, g.ente);
    leaf_at(m, c, b"descrizione_ente", s, g.described)
}

// An empty ISTAT code is left out.
fn istat_code(m: &mut [u8], at: usize, s: &[u8], w: Span) -> usize
    requires { Lies s.now w × RoomFor at (istat_out (text_at s.now w) none) }
    ensures { WroteAll m.old m.new at (istat_out (text_at s.now w) none) result }
{
    let istat = header::part_at(s, w);
    if istat.is_empty() {
        at
    } else {
        pen::leaf(m, at, b"codice_istat_ente", istat)
    }
}

fn head_last(m: &mut [u8], at: usize, s: &[u8], g: Given, body: &[u8]) -> usize
    requires { GivenIn s.now g × RoomFor at (head_last s.now g body.now) }
    ensures { WroteAll m.old m.new at (head_last s.now g body.now) result }
{
    let a = leaf_at(m, at, b"codice_fiscale_ente", s, g.fiscal);
    let b = leaf_at(m, a, b"codice_tramite_ente", s, g.tramite);
    let c = leaf_at(m, b, b"codice_tramite_BT", s, g.bank);
    pen::leaf(m, c, b"codice_ente_BT", body)
}

// The header of a message.
fn head(m: &mut [u8], at: usize, abi: &[u8], s: &[u8], g: Given, body: &[u8]) -> usize
    requires { GivenIn s.now g × RoomOf at (head_in abi.now s.now g body.now) }
    ensures { WroteTree m.old m.new at (head_in abi.now s.now g body.now) result }
{
    let a = pen::open_tag(m, at, b"testata_messaggio");
    let b = head_first(m, a, abi, s, g);
    let c = istat_code(m, b, s, g.istat);
    let d = head_last(m, c, s, g, body);
    pen::close_tag(m, d, b"testata_messaggio")
}

// What stands before a message's entries.
pub fn beginning(m: &mut [u8], at: usize, abi: &[u8], s: &[u8], g: Given, body: &[u8]) -> usize
    requires { GivenIn s.now g × RoomFor at (beginning_in abi.now s.now g body.now) }
    ensures { WroteAll m.old m.new at (beginning_in abi.now s.now g body.now) result }
{
    let a = head(m, at, abi, s, g, body);
    leaf_at(m, a, b"identificativo_flusso_BT", s, g.flow)
}
