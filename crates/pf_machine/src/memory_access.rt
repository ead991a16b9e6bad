ghost use Rattle.std.specs.Prelude.{◌≡◌, ◌+◌, ◌-◌, ◌<◌, ◌≤◌, ◌++◌, length, replicate, slice_index_or, MatchOption, IfSome, Some, None, true, false};
ghost use Rattle.pf_machine.specs.Meaning.Bytes.{number, bytes};
ghost use Rattle.pf_machine.specs.Meaning.Memory.{holds, readable, writable, nowhere, loaded, stored};
ghost use Rattle.pf_machine.specs.Steps.Spans.{Spans};

use crate::memory::Region;

fn is_within(region: &Region, address: u64, n: usize) -> bool
    ensures { result ≡ holds address n region.now }
{
    if region.start <= address {
        let offset = address - region.start;
        let size = region.bytes.len() as u64;
        offset <= size && n as u64 <= size - offset
    } else {
        false
    }
}

fn find_readable(regions: &[Region], address: u64, n: usize) -> Option<usize>
    ensures value { result ≡ readable regions.now address n }
    ensures within { IfSome result (λ k. k < length regions.now) }
    ensures spans { IfSome result (λ k. Spans address n (slice_index_or regions.now k nowhere)) }
{
    regions
        .iter()
        .position(|r| r.reads && is_within(r, address, n))
}

fn find_writable(regions: &[Region], address: u64, n: usize) -> Option<usize>
    ensures value { result ≡ writable regions.now address n }
    ensures within { IfSome result (λ k. k < length regions.now) }
    ensures spans { IfSome result (λ k. Spans address n (slice_index_or regions.now k nowhere)) }
{
    regions
        .iter()
        .position(|r| r.writes && is_within(r, address, n))
}

/// The n bytes at the address, where a region holds them all and may be read.
pub fn readable_bytes(regions: &[Region], address: u64, n: usize) -> Option<&[u8]>
    ensures value { MatchOption result (loaded regions.now address n ≡ None)
        (λ held. loaded regions.now address n ≡ Some held.now) }
    ensures count { IfSome result (λ held. length held.now ≡ n) }
{
    match find_readable(regions, address, n) {
        None => None,
        Some(k) => {
            let region = &regions[k];
            let from = (address - region.start) as usize;
            Some(&region.bytes.as_slice()[from..from + n])
        }
    }
}

/// Writes the bytes at the address and tells true, where a region holds them all and may be
/// written.
pub fn store(regions: &mut [Region], address: u64, new: &[u8]) -> bool
    ensures { MatchOption (stored regions.old address new.now) ((result ≡ false) × (regions.new ≡ regions.old))
        (λ after. (result ≡ true) × (regions.new ≡ after)) }
{
    match find_writable(regions, address, new.len()) {
        None => false,
        Some(k) => {
            let region = &mut regions[k];
            let from = (address - region.start) as usize;
            region.bytes.overwrite(from, new);
            true
        }
    }
}

/// The number of at most eight bytes, the lowest first.
pub fn number_of(held: &[u8]) -> u64
    requires { length held.now ≤ 8 }
    ensures { result ≡ number held.now }
{
    u64::from_le_bytes(widened(held))
}

/// The bytes, and zeros behind them.
fn widened(held: &[u8]) -> [u8; 8]
    requires { length held.now ≤ 8 }
    ensures { result ≡ held.now ++ replicate (8 - length held.now) 0 }
{
    let mut all = [0; 8];
    all[..held.len()].copy_from_slice(held);
    all
}

/// The eight bytes of a number, the lowest first.
pub fn bytes_of(n: u64) -> [u8; 8]
    ensures { result ≡ bytes 8 n }
{
    n.to_le_bytes()
}

/// Writes the lowest bytes of the number, at most eight, as `store` writes them.
pub fn store_lowest(regions: &mut [Region], address: u64, n: u64, count: u8) -> bool
    requires { count ≤ 8 }
    ensures { MatchOption (stored regions.old address (bytes count n)) ((result ≡ false) × (regions.new ≡ regions.old))
        (λ after. (result ≡ true) × (regions.new ≡ after)) }
{
    let all = bytes_of(n);
    store(regions, address, &all[..usize::from(count)])
}
