// A code looked up once: the body of the table that it names.
#![tactic(auto)]

ghost use Rattle.std.specs.Prelude.{◌≡◌, true};
ghost use Rattle.table.specs.Table.{table_ok};
ghost use Rattle.address.specs.Address.{body_named, addressed};

// Why there is no body: the table isn't valid, or none of its bodies has the code.
#[derive(Clone, Copy)]
pub enum NoBody {
    Invalid,
    Unknown,
}

// The body that a code names: the place of its entry, that of its first slot, and its number of slots; or why there is none.
pub type Addressed = Result<(usize, usize, usize), NoBody>;

// The body of a valid table that a code names: where its entry begins, where its slots do, and how many these are.
#[tactic(auto, using(crate::proofs::Laws::to_unknown))]
pub fn body_named(t: &[u8], code: &[u8]) -> Addressed
    requires { table_ok t.now ≡ true }
    ensures { result ≡ body_named t.now code.now }
{
    let b = table::find_body(t, code).ok_or(NoBody::Unknown)?;
    let e = table::HEAD + entries::ENTRY * b;
    Ok((e, entries::place_of(t, e), entries::slots_of(t, e)))
}

// The body that a code names, on any bytes at all.
pub fn addressed_by(t: &[u8], code: &[u8]) -> Addressed
    ensures { result ≡ addressed t.now code.now }
{
    if !table::table_ok(t) {
        return Err(NoBody::Invalid);
    }
    body_named(t, code)
}
