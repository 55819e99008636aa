// One body of n slots under repair, which has closed the years up to `closed`, with room for its flags: how many slots are blanked, how many records moved, the places blanked, and the slots repaired.
#![tactic(auto)]

ghost use Rattle.std.specs.Prelude.{◌≡◌, ◌+◌, ◌*◌, ◌≤◌, length};
ghost use Rattle.bounds.specs.Bounds.{max_slots};
ghost use Rattle.words.specs.Numbers.{put, bytes4};
ghost use Rattle.record.specs.Slot.{slot_size};
ghost use Rattle.packing.specs.Packing.{packed};
ghost use Rattle.keeping.specs.Keeping.{keeps_at, blanked_from, moved, each_bytes};

// How many slots are blanked.
pub fn blanked_in(t: &[u8], base: usize, n: usize, closed: u64) -> usize
    requires { (base + slot_size * n ≤ length t.now) × (n ≤ max_slots) }
    ensures { (result ≡ length (blanked_from t.now base (keeps_at closed t.now base n))) × (result ≤ n) }
{
    let mut room = [0u8; 512];
    let flags = &mut room[..n];
    keeping::flags_of(t, base, flags, closed);
    keeping::count_blanked(t, base, flags)
}

// How many records are moved.
pub fn moved_in(t: &[u8], base: usize, n: usize, closed: u64) -> usize
    requires { (base + slot_size * n ≤ length t.now) × (n ≤ max_slots) }
    ensures { result ≡ moved (keeps_at closed t.now base n) }
{
    let mut room = [0u8; 512];
    let flags = &mut room[..n];
    keeping::flags_of(t, base, flags, closed);
    keeping::count_moved(flags)
}

// Writes the places blanked; where the last of them ends.
pub fn places_in(r: &mut [u8], to: usize, t: &[u8], base: usize, n: usize, closed: u64) -> usize
    requires { (base + slot_size * n ≤ length t.now) × (n ≤ max_slots)
        × (to + 4 * length (blanked_from t.now base (keeps_at closed t.now base n)) ≤ length r.old) }
    ensures { (result ≡ to + 4 * length (blanked_from t.now base (keeps_at closed t.now base n)))
        × (r.new ≡ put r.old to (each_bytes bytes4 (blanked_from t.now base (keeps_at closed t.now base n)))) }
{
    let mut room = [0u8; 512];
    let flags = &mut room[..n];
    keeping::flags_of(t, base, flags, closed);
    keeping::put_places(r, to, t, base, flags)
}

// Moves the kept records up, and blanks what follows them.
pub fn repair_in(t: &mut [u8], base: usize, n: usize, closed: u64)
    requires { (base + slot_size * n ≤ length t.old) × (n ≤ max_slots) }
    ensures { t.new ≡ packed t.old base (keeps_at closed t.old base n) }
{
    let mut room = [0u8; 512];
    let flags = &mut room[..n];
    keeping::flags_of(t, base, flags, closed);
    packing::pack(t, base, flags);
}
