// For the case programs: a text with one part of it replaced, or with a part put behind it many times.
#![tactic(auto)]

ghost use Rattle.std.specs.Prelude.{◌≤◌, length};
ghost use Rattle.std.specs.Counts.{IsPrefixLen};

// The k-th place, from 1, at which x stands in s, or s's length; place 0 is its start, whatever stands there.
fn place_of(s: &[u8], x: &[u8], k: u64) -> usize
    ensures { result ≤ length s.now }
{
    if k == 0 {
        return 0;
    }
    let mut left = k;
    for i in 0..s.len() {
        // Most places differ in the first byte.
        if (x.is_empty() || s[i] == x[0]) && s[i..].starts_with(x) {
            if left <= 1 {
                return i;
            }
            left -= 1;
        }
    }
    s.len()
}

// Puts a part after the n bytes that out holds, as far as there is room: how many bytes it then holds.
fn append(out: &mut [u8], n: usize, part: &[u8]) -> usize
    requires { n ≤ length out.old }
    ensures { IsPrefixLen result out.new }
{
    let more = part.len().min(out.len() - n);
    out[n..n + more].copy_from_slice(&part[..more]);
    n + more
}

// Puts base with its k-th x replaced by y into out, as far as there is room: how many bytes it then holds.
pub fn spliced(base: &[u8], x: &[u8], k: u64, y: &[u8], out: &mut [u8]) -> usize
    ensures { IsPrefixLen result out.new }
{
    let (before, rest) = base.split_at(place_of(base, x, k));
    let n = append(out, 0, before);
    let m = append(out, n, y);
    append(out, m, rest.get(x.len()..).unwrap_or(b""))
}

// Puts base, then y so many times, then z into out, as far as there is room: how many bytes it then holds.
pub fn repeated(base: &[u8], y: &[u8], times: u64, z: &[u8], out: &mut [u8]) -> usize
    ensures { IsPrefixLen result out.new }
{
    let mut m = append(out, 0, base);
    for _ in 0..times {
        m = append(out, m, y);
    }
    append(out, m, z)
}
