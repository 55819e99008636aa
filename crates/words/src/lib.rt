// Numbers of 2, 4 and 8 bytes, highest byte first, read and written at a place of a lent buffer.
#![tactic(auto)]

ghost use Rattle.std.specs.Prelude.{◌≡◌, ◌+◌, ◌≤◌, ◌<◌, length};
ghost use Rattle.words.specs.Numbers.{be2, be4, be8, put, bytes2, bytes4, bytes8};

#[tactic(auto, unfolding(crate::specs::Numbers::be2))]
pub fn read2(s: &[u8], at: usize) -> u64
    requires { at + 2 ≤ length s.now }
    ensures { (result ≡ be2 s.now at) × (result < 65536) }
{
    u16::from_be_bytes([s[at], s[at + 1]]) as u64
}

#[tactic(auto, using(crate::proofs::Laws::be4_by))]
pub fn read4(s: &[u8], at: usize) -> u64
    requires { at + 4 ≤ length s.now }
    ensures { (result ≡ be4 s.now at) × (result < 4294967296) }
{
    u32::from_be_bytes([s[at], s[at + 1], s[at + 2], s[at + 3]]) as u64
}

#[tactic(auto, unfolding(crate::specs::Numbers::be8))]
pub fn read8(s: &[u8], at: usize) -> u64
    requires { at + 8 ≤ length s.now }
    ensures { result ≡ be8 s.now at }
{
    read4(s, at) * 4294967296 + read4(s, at + 4)
}

// s's bytes from at on are those of v afterwards; all others stay. Byte by byte: for the slice's own copy the archive would need memmove from outside,
// and a call for each few bytes.
pub fn copy_in(s: &mut [u8], at: usize, v: &[u8])
    requires { at + length v.now ≤ length s.old }
    ensures { s.new ≡ put s.old at v.now }
{
    for (i, &b) in v.iter().enumerate() {
        s[at + i] = b;
    }
}

pub fn write2(s: &mut [u8], at: usize, v: u64)
    requires { at + 2 ≤ length s.old }
    ensures { s.new ≡ put s.old at (bytes2 v) }
{
    copy_in(s, at, &((v % 65536) as u16).to_be_bytes());
}

pub fn write4(s: &mut [u8], at: usize, v: u64)
    requires { at + 4 ≤ length s.old }
    ensures { s.new ≡ put s.old at (bytes4 v) }
{
    copy_in(s, at, &((v % 4294967296) as u32).to_be_bytes());
}

pub fn write8(s: &mut [u8], at: usize, v: u64)
    requires { at + 8 ≤ length s.old }
    ensures { s.new ≡ put s.old at (bytes8 v) }
{
    copy_in(s, at, &v.to_be_bytes());
}
