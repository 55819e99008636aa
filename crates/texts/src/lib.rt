// A caller's text or time: a slice of its own that could stand as text in a flow.
#![tactic(auto)]

ghost use Rattle.std.specs.Prelude.{◌≡◌};
ghost use Rattle.texts.specs.Texts.{whole_text, caller_text, istat_text, caller_time};

// Whether all of a slice is text. The reader of texts stops at a `<` and else breaks: at the end where all is text, before it where something is not.
fn is_text(t: &[u8]) -> bool
    ensures { result ≡ whole_text t.now }
{
    match tokens::text(t, 0) {
        Ok(_) => false,
        Err(p) => p == t.len(),
    }
}

#[tactic(auto, unfolding(crate::specs::Texts::caller_text))]
pub fn is_caller_text(t: &[u8]) -> bool
    ensures { result ≡ caller_text t.now }
{
    matches!(t.len(), 1..=140) && is_text(t)
}

// The ISTAT code may be empty.
#[tactic(auto, unfolding(crate::specs::Texts::istat_text))]
pub fn is_istat(t: &[u8]) -> bool
    ensures { result ≡ istat_text t.now }
{
    t.is_empty() || is_caller_text(t)
}

#[tactic(auto, unfolding(crate::specs::Texts::caller_time))]
pub fn is_caller_time(t: &[u8]) -> bool
    ensures { result ≡ caller_time t.now }
{
    dates::data_ora_zona(t) && is_text(t)
}
