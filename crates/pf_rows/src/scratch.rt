ghost use Rattle.std.specs.Prelude.{◌≡◌, ◌+◌, ◌*◌, ◌/◌, ◌^◌, ◌≤◌, if◌then◌else◌, nat_le};
ghost use Rattle.pf_rows.specs.Meaning.Scratch.{table_bytes, buffer_at, slot_at, scratch_bytes};

/// Where buffer number `k` begins in the scratch of a row of so many taps.
pub fn buffer_offset(vector: u32, taps: usize, k: usize) -> u32
    requires vector { vector ≤ 128 }
    requires taps { taps ≤ 64 }
    requires buffer { k ≤ 65 }
    ensures value { result ≡ buffer_at vector taps k }
    ensures low { result ≤ 2 ^ 16 }
{
    128 * ((taps as u32 + 16) / 16) + 2 * vector * k as u32
}

/// Where a slot begins in the scratch of a row of so many taps.
pub fn slot_offset(vector: u32, taps: usize, slot: u32) -> u32
    requires vector { vector ≤ 128 }
    requires taps { taps ≤ 64 }
    requires near { slot_at vector taps slot ≤ 2 ^ 30 }
    ensures { result ≡ slot_at vector taps slot }
{
    buffer_offset(vector, taps, taps + 1) + vector * slot
}

/// Bytes of scratch that a row's program needs over vectors of so many bytes, for so many taps and
/// slots, or `None` where they are more than a head may ask for, 2^30.
pub fn scratch_size(vector: u32, taps: usize, slots: u32) -> Option<u32>
    ensures { let size = scratch_bytes vector taps slots in
        result ≡ (if nat_le size (2 ^ 30) then Some size else None) }
{
    let (vector, taps, slots) = (u128::from(vector), taps as u128, u128::from(slots));
    let buffers = 2 * vector * (taps + 1);
    let size = 128 * ((taps + 16) / 16) + buffers + vector * slots;
    if size <= 1 << 30 {
        Some(size as u32)
    } else {
        None
    }
}
