// The header of a flow that stands, read once, in one pass over the children that hold it: the structure says which row each is. Each edition has
// its own function; what they give is the same.
#![tactic(auto)]

ghost use Rattle.std.specs.Prelude.{◌≡◌, ◌+◌, ◌≤◌, length};
ghost use Rattle.scan.specs.Bytes.{part};
ghost use Rattle.markup.specs.Noted.{Noted};
ghost use Rattle.rows.specs.Kept.{kept_from};
ghost use Rattle.editions.specs.declared.Edition.TheVariants.{Oil, Opi};
ghost use Rattle.orders.specs.Shape.{Filled};
ghost use Rattle.header.specs.Header.{root_of};
ghost use Rattle.header.specs.Heading.{root_rows, FourFirst, testata_in, heading_from};

use children::Child;
use editions::Edition;
use fields::Form;
use schema::Parent;

// A part of the flow.
#[derive(Clone, Copy)]
pub struct Span {
    pub from: usize,
    pub to: usize,
}

// Of the four fields from codice_ABI_BT to codice_ente_BT: where these two stand, and where the children after them begin.
#[derive(Clone, Copy)]
pub struct Testata {
    pub abi: Span,
    pub ente: Span,
    pub after: usize,
}

// codice_ABI_BT and codice_ente_BT where they stand, esercizio as a number, and where the orders begin.
#[derive(Clone, Copy)]
pub struct Heading {
    pub abi: Span,
    pub ente: Span,
    pub esercizio: u64,
    pub orders: usize,
}

// The part itself, not a copy.
pub fn part_at(s: &[u8], w: Span) -> &[u8]
    requires { (w.from ≤ w.to) × (w.to ≤ length s.now) }
    ensures { result.now ≡ part s.now w.from w.to }
{
    &s[w.from..w.to]
}

// Where an element's text stands.
fn span_of(c: Child) -> Span
    requires { c.gt + 1 ≤ c.to }
    ensures { (result.from ≡ c.gt + 1) × (result.to ≡ c.to) }
{
    Span {
        from: c.gt + 1,
        to: c.to,
    }
}

// The parent whose rows an edition's root holds.
pub fn root_of(e: Edition) -> Parent
    ensures { result ≡ root_of e }
{
    match e {
        Edition::Oil => Parent::FlussoOrdinativi,
        Edition::Opi => Parent::FlussoOpi,
    }
}

// The four fields that both editions have one after the other, among the named children from a place on.
fn testata_from(s: &[u8], from: usize, parent: Parent, past: &[u32]) -> Testata
    requires { FourFirst parent s.now from × Noted s.now past.now }
    ensures { result ≡ testata_in (kept_from parent s.now from) }
{
    let a = orders::first_named(s, from, parent, past).child;
    let b = orders::first_named(s, a.after, parent, past).child;
    let c = orders::first_named(s, b.after, parent, past).child;
    let d = orders::first_named(s, c.after, parent, past).child;
    Testata {
        abi: span_of(a),
        ente: span_of(d),
        after: d.after,
    }
}

// Edition 1: all five fields are the root's children.
fn flat_from(s: &[u8], from: usize, past: &[u32]) -> Heading
    requires { Filled (root_rows Oil) 3 (root_of Oil) s.now 0 from × Noted s.now past.now }
    ensures { result ≡ heading_from Oil s.now from }
{
    let t = testata_from(s, from, Parent::FlussoOrdinativi, past);
    let e = orders::first_named(s, t.after, Parent::FlussoOrdinativi, past).child;
    let esercizio = orders::number_of(rows::read_field(s, e, Form::Esercizio));
    Heading {
        abi: t.abi,
        ente: t.ente,
        esercizio,
        orders: e.after,
    }
}

// Edition 2: four of them are testata_flusso's, and esercizio comes after it.
fn nested_from(s: &[u8], from: usize, past: &[u32]) -> Heading
    requires { Filled (root_rows Opi) 3 (root_of Opi) s.now 0 from × Noted s.now past.now }
    ensures { result ≡ heading_from Opi s.now from }
{
    let k = orders::first_named(s, from, Parent::FlussoOpi, past).child;
    let inner = scan::white_end(s, k.gt + 1);
    let t = testata_from(s, inner, Parent::TestataFlusso, past);
    let e = orders::first_named(s, k.after, Parent::FlussoOpi, past).child;
    let esercizio = orders::number_of(rows::read_field(s, e, Form::Esercizio));
    Heading {
        abi: t.abi,
        ente: t.ente,
        esercizio,
        orders: e.after,
    }
}

// The header of the root's named children from a place on.
pub fn header_from(s: &[u8], e: Edition, from: usize, past: &[u32]) -> Heading
    requires { Filled (root_rows e) 3 (root_of e) s.now 0 from × Noted s.now past.now }
    ensures { result ≡ heading_from e s.now from }
{
    match e {
        Edition::Oil => flat_from(s, from, past),
        Edition::Opi => nested_from(s, from, past),
    }
}
