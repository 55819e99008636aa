// The form of anagrafica_beneficiario and anagrafica_versante: its characters are counted, each of the five references as one.
#![tactic(auto)]

ghost use Rattle.std.specs.Prelude.{◌≡◌, ◌<◌, length};
ghost use Rattle.scan.specs.Bytes.{byte_at};
ghost use Rattle.names.specs.Names.{references_replaced, characters, anagrafica};
ghost use Rattle.names.specs.Inner.{OnePast};

// Past what counts as one character at a position: a reference, a character, or else one byte.
#[tactic(auto, using(crate::proofs::Laws::past_ascii, crate::proofs::Laws::past_ref_or, crate::proofs::Laws::past_char_or))]
fn past_one(t: &[u8], at: usize) -> usize
    requires { at < length t.now }
    ensures { OnePast t.now at result }
{
    if t[at] == b'&' {
        scan::reference(t, at).unwrap_or(at + 1)
    } else if t[at] <= 127 {
        at + 1
    } else {
        scan::character(t, at).unwrap_or(at + 1)
    }
}

// How many characters a text has once the five references are replaced, counted without replacing them.
pub fn characters_of(t: &[u8]) -> usize
    ensures { result ≡ characters (references_replaced t.now) }
{
    let mut i = 0;
    let mut n: usize = 0;
    while i < t.len() {
        i = past_one(t, i);
        n += 1;
    }
    n
}

// anagrafica_beneficiario, anagrafica_versante. No text has more characters than bytes, so most are not counted.
#[tactic(auto, using(crate::proofs::Laws::name_empty, crate::proofs::Laws::name_short, crate::proofs::Laws::name_counted))]
pub fn anagrafica_of(t: &[u8]) -> bool
    ensures { result ≡ anagrafica t.now }
{
    1 <= t.len() && (t.len() <= 140 || characters_of(t) <= 140)
}
