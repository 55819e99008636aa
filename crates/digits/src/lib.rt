// The forms that write a number in digits: esercizio, numero, progressivo, the amounts, and codice_errore of an outcome message.
#![tactic(auto)]

ghost use Rattle.std.specs.Prelude.{◌≡◌, ◌≤◌};
ghost use Rattle.scan.specs.Bytes.{between};
ghost use Rattle.digits.specs.Digits.{is_value, within, digits, esercizio, numero_written, numero, progressivo, importo, is_refusal, codice_errore};
ghost use Rattle.digits.specs.Inner.{zero_first};

pub fn is_value(n: Option<u64>) -> bool
    ensures { result ≡ is_value n }
{
    n.is_some()
}

fn number_within(n: Option<u64>, lo: u64, hi: u64) -> Option<u64>
    ensures { result ≡ within (between lo hi) n }
{
    n.filter(|&v| lo <= v && v <= hi)
}

// The number that a text of lo to hi digits writes.
#[tactic(auto, using(crate::proofs::Laws::p10_zero, crate::proofs::Laws::p10_small, crate::proofs::Laws::digit_low, crate::proofs::Laws::one_more, crate::proofs::Laws::digits_more, crate::proofs::Laws::digits_not, crate::proofs::Laws::digits_end), unfolding(crate::specs::Digits::digits))]
fn digits_of(t: &[u8], lo: usize, hi: usize) -> Option<u64>
    requires { hi ≤ 9 }
    ensures { result ≡ digits lo hi t.now }
{
    if t.len() < lo || hi < t.len() {
        return None;
    }
    let mut v = 0;
    for &b in t {
        if !scan::is_digit(b) {
            return None;
        }
        v = v * 10 + u64::from(b - b'0');
    }
    Some(v)
}

// A month, a day, an hour, a minute or a second.
pub fn two_digits(t: &[u8]) -> Option<u64>
    ensures { result ≡ digits 2 2 t.now }
{
    digits_of(t, 2, 2)
}

// A year, in a date or an esercizio.
pub fn four_digits(t: &[u8]) -> Option<u64>
    ensures { result ≡ digits 4 4 t.now }
{
    digits_of(t, 4, 4)
}

#[tactic(auto, unfolding(crate::specs::Digits::esercizio))]
pub fn esercizio_of(t: &[u8]) -> Option<u64>
    ensures { result ≡ esercizio t.now }
{
    number_within(four_digits(t), bounds::FIRST_YEAR, bounds::LAST_YEAR)
}

// The number that a numero writes, 0 too.
pub fn numero_written(t: &[u8]) -> Option<u64>
    ensures { result ≡ numero_written t.now }
{
    digits_of(t, 1, 7)
}

#[tactic(auto, unfolding(crate::specs::Digits::numero))]
pub fn numero_of(t: &[u8]) -> Option<u64>
    ensures { result ≡ numero t.now }
{
    number_within(numero_written(t), 1, bounds::MAX_NUMERO)
}

#[tactic(auto, unfolding(crate::specs::Digits::progressivo))]
pub fn progressivo_of(t: &[u8]) -> Option<u64>
    ensures { result ≡ progressivo t.now }
{
    digits_of(t, 1, 3)
}

#[tactic(auto, unfolding(crate::specs::Inner::zero_first))]
fn zero_in_front(t: &[u8]) -> bool
    ensures { result ≡ zero_first t.now }
{
    scan::byte(t, 0) == b'0' && t.len() != 4
}

// importo_mandato and the other amounts
#[tactic(auto, using(crate::proofs::Laws::importo_is_back, crate::proofs::Laws::digits_small))]
pub fn importo_of(t: &[u8]) -> Option<u64>
    ensures { result ≡ importo t.now }
{
    let n = t.len();
    if n < 4 || 12 < n || t[n - 3] != b'.' || zero_in_front(t) {
        return None;
    }
    let whole = digits_of(&t[..n - 3], 1, 9)?;
    let cents = digits_of(&t[n - 2..], 2, 2)?;
    Some(whole * 100 + cents)
}

// Whether an order can be refused with this code.
pub fn is_refusal(code: u64) -> bool
    ensures { result ≡ is_refusal code }
{
    matches!(code, 12..=19 | 24..=26)
}

// codice_errore
#[tactic(auto, unfolding(crate::specs::Digits::codice_errore))]
pub fn codice_errore(t: &[u8]) -> Option<u64>
    ensures { result ≡ codice_errore t.now }
{
    digits_of(t, 2, 2).filter(|&v| is_refusal(v))
}
