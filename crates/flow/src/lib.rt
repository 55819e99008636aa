// A whole flow, or another document of rows: markup, then structure, then fields, each over all of it; what stands is read once for all three.
#![tactic(auto)]

ghost use Rattle.std.specs.Prelude.{◌≡◌, ◌+◌, ◌≤◌, length};
ghost use Rattle.markup.specs.Markup.{element_at, children_by, content_at};
ghost use Rattle.markup.specs.Noted.{Noted};
ghost use Rattle.onward.specs.Onward.{Reaches};
ghost use Rattle.flow.specs.Flow.{by_root, verdict_by, id_allowed, verdict_of};

use editions::Edition;
use fields::Cause;
use onward::Reached;
use scan::Walk;
use schema::Parent;
use standing::Flaw;

// What breaks of a document: its markup at a place, its structure, or a field at the `<` of its element, with its cause.
#[derive(Clone, Copy)]
pub enum Breakage {
    MarkupBreaks(usize),
    StructureBreaks,
    FieldBreaks(usize, Cause),
}

// What a document's reading comes to: where the root's content begins, or what breaks.
pub type Verdict = Result<usize, Breakage>;

// The markup of the root's content, of which all up to a place was read.
fn content_on(s: &[u8], at: usize, reached: Reached, past: &mut [u32]) -> Walk
    requires at_in_bounds { (at ≤ length s.now) × (reached.at ≤ length s.now) × Noted s.now past.old }
    requires at_value { (reached.count ≡ 0 → ⊥) → content_at 11 s.now at ≡ children_by (element_at 11 s.now) s.now reached.at }
    ensures { (result ≡ content_at 11 s.now at) × Noted s.now past.new }
{
    if reached.count == 0 {
        markup::content(s, at, 11, past)
    } else {
        markup::children(s, reached.at, 11, past)
    }
}

// The verdict of a document whose markup stands: its root's name goes from the byte after lt up to e, its content begins at a place and stands as far as
// was reached.
fn verdict_at(
    s: &[u8],
    lt: usize,
    e: usize,
    at: usize,
    name: &[u8],
    root: Parent,
    reached: Reached,
    past: &[u32],
) -> Verdict
    requires { (lt + 1 ≤ e) × (e ≤ length s.now) × (at ≤ length s.now) × Noted s.now past.now × Reaches 4 11 root s.now at reached }
    ensures { result ≡ by_root name.now root s.now lt e at }
{
    if !schema::is(s, lt + 1, e, name) {
        return Err(Breakage::StructureBreaks);
    }
    match standing::judge_on(s, at, reached.at, reached.row, reached.count, root, 4, past) {
        Err(Flaw::StructureBreaks) => Err(Breakage::StructureBreaks),
        Err(Flaw::FieldBreaks(p, x)) => Err(Breakage::FieldBreaks(p, x)),
        Ok(()) => Ok(at),
    }
}

// The verdict of a document whose root is to have this name and this parent's rows, and may have an Id or not. What stands is read in one pass, and from
// where that ends the markup first, then structure and fields. The notes are for those who read on.
pub fn verdict_by(s: &[u8], name: &[u8], root: Parent, ids: bool, past: &mut [u32]) -> Verdict
    requires { Noted s.now past.old }
    ensures { (result ≡ verdict_by name.now root ids s.now) × Noted s.now past.new }
{
    match markup::open(s, ids) {
        Err(p) => Err(Breakage::MarkupBreaks(p)),
        Ok((lt, e, at)) => {
            let reached = onward::onward(s, at, root, 4, 11, past);
            let inside = content_on(s, at, reached, past);
            match markup::close(s, lt, e, at, inside) {
                Err(p) => Err(Breakage::MarkupBreaks(p)),
                Ok((_, _, _)) => verdict_at(s, lt, e, at, name, root, reached, past),
            }
        }
    }
}

// Whether an Id may stand on the root of a flow.
fn id_allowed(e: Edition) -> bool
    ensures { result ≡ id_allowed e }
{
    matches!(e, Edition::Opi)
}

// The verdict of a flow of an edition.
pub fn verdict_of(s: &[u8], e: Edition, past: &mut [u32]) -> Verdict
    requires { Noted s.now past.old }
    ensures { (result ≡ verdict_of e s.now) × Noted s.now past.new }
{
    verdict_by(
        s,
        b"flusso_ordinativi",
        header::root_of(e),
        id_allowed(e),
        past,
    )
}

// The verdict of any bytes at all.
pub fn verdict_alone(s: &[u8], e: Edition) -> Verdict
    ensures { result ≡ verdict_of e s.now }
{
    let mut none = [0u32; 1];
    verdict_of(s, e, &mut none)
}
