ghost use Rattle.std.specs.Prelude.{◌≡◌, ℕ, ◌+◌, ◌^◌, ◌<◌, ◌≤◌, length, map, take, slice_index};
ghost use Rattle.std.specs.List.{range_with_len};
ghost use Rattle.pf_layout.specs.Meaning.Orders.{IsOrder, place_of, exchanged};
ghost use Rattle.pf_layout.specs.Steps.Inverses.{IsInverse, transposed};

use std::marker::Model;

/// The most digits of a place.
const MOST: usize = 7;

/// An order of the pixels of a block: each digit of a pixel's number, in base two, goes to a
/// position in the number of the place at which the pixel stands. At most 7 digits.
#[derive(Drop)]
pub struct Layout {
    positions: [u8; MOST],
    // The digit that goes to each position.
    digits: [u8; MOST],
    count: u8,
}

impl Model for Layout {
    ghost use Rattle.std.specs.Prelude.{List, ℕ, take};
    ghost use Rattle.pf_layout.specs.Steps.Inverses.{IsInverse};

    ghost Value = { List ℕ };

    ghost view = { λ l. take l.count l.positions };

    ghost invariant = { λ l. IsInverse l.count l.positions l.digits };
}

impl Layout {
    /// The order in which each pixel stands at the place of its number.
    pub fn plain(digits: u8) -> Layout
        requires { digits ≤ 7 }
        ensures order { result ≡ range_with_len 0 digits }
        ensures place { (p : ℕ) → p < 2 ^ digits → place_of result p ≡ p }
    {
        Layout {
            positions: [0, 1, 2, 3, 4, 5, 6],
            digits: [0, 1, 2, 3, 4, 5, 6],
            count: digits,
        }
    }

    /// How many digits a place has.
    pub fn digits(&self) -> u8
        ensures count { result ≡ length self.now }
        ensures order { IsOrder self.now }
    {
        self.count
    }

    /// The same order once more.
    pub fn copied(&self) -> Layout
        ensures { result ≡ self.now }
    {
        Layout {
            positions: self.positions,
            digits: self.digits,
            count: self.count,
        }
    }

    /// The place of a pixel. No two pixels have the same.
    pub fn place(&self, pixel: u8) -> u8
        requires { pixel < 2 ^ length self.now }
        ensures value { result ≡ place_of self.now pixel }
        ensures inside { result < 2 ^ length self.now }
        ensures alone { (p : ℕ) → p < 2 ^ length self.now → place_of self.now p ≡ result → p ≡ pixel }
    {
        let _ = &self.positions;
        self.place_at(pixel)
    }

    fn place_at(&self, pixel: u8) -> u8
        ensures { result ≡ place_of self.now pixel }
    {
        place_through(&self.positions[..usize::from(self.count)], pixel)
    }

    /// The order in which each pixel stands where `outer` has the place that it has in this one.
    pub fn compose(&self, outer: &Layout) -> Layout
        requires { length outer.now ≡ length self.now }
        ensures count { length result ≡ length self.now }
        ensures place { (p : ℕ) → place_of result p ≡ place_of outer.now (place_of self.now p) }
    {
        let _ = &self.positions;
        self.through(outer)
    }

    fn through(&self, outer: &Layout) -> Layout
        requires { length outer.now ≡ length self.now }
        ensures { result ≡ map (λ d. slice_index outer.now d) self.now }
    {
        let positions = read_through(&outer.positions, &self.positions, self.count);
        let digits = read_through(&self.digits, &outer.digits, self.count);
        Layout {
            positions,
            digits,
            count: self.count,
        }
    }

    /// The order in which a digit of each place has changed places with the next higher one.
    pub fn swap(&self, digit: u8) -> Layout
        requires { digit + 1 < length self.now }
        ensures count { length result ≡ length self.now }
        ensures place { (p : ℕ) → place_of result p ≡ exchanged (2 ^ digit) (place_of self.now p) }
    {
        let exchange = transposition(digit, self.count);
        self.through(&exchange)
    }

    /// The order that leads from the places of `from` to those of `to`.
    pub fn repairs(from: &Layout, to: &Layout) -> Layout
        requires { length from.now ≡ length to.now }
        ensures count { length result ≡ length to.now }
        ensures place { (p : ℕ) → place_of result (place_of from.now p) ≡ place_of to.now p }
    {
        let positions = read_through(&to.positions, &from.digits, from.count);
        let digits = read_through(&from.positions, &to.digits, from.count);
        Layout {
            positions,
            digits,
            count: from.count,
        }
    }
}

// The order of so many digits in which two of them have changed places.
fn transposition(digit: u8, count: u8) -> Layout
    requires room { digit + 1 < count }
    requires few { count ≤ 7 }
    ensures count { length result ≡ count }
    ensures each { (d : ℕ) → d < count → slice_index result d ≡ transposed digit d }
{
    let mut positions = [0, 1, 2, 3, 4, 5, 6];
    positions[usize::from(digit)] = digit + 1;
    positions[usize::from(digit) + 1] = digit;
    Layout {
        positions,
        digits: positions,
        count,
    }
}

// The place of a pixel whose digits, from the lowest on, go to these positions.
#[tactic(auto, using(crate::proofs::OrderLaws::first_place, crate::proofs::OrderLaws::no_place))]
fn place_through(positions: &[u8], pixel: u8) -> u8
    requires { place_of positions.now pixel < 256 }
    ensures { result ≡ place_of positions.now pixel }
{
    match positions {
        [position, more @ ..] => {
            let rest = place_through(more, pixel / 2);
            if pixel % 2 == 1 {
                2u8.pow(u32::from(*position)) + rest
            } else {
                rest
            }
        }
        _ => 0,
    }
}

// What stands in the outer list at the numbers in the inner one.
fn read_through(outer: &[u8; MOST], inner: &[u8; MOST], count: u8) -> [u8; MOST]
    requires few { count ≤ 7 }
    requires below { (i : ℕ) → i < count → slice_index inner.now i < count }
    ensures size { length result ≡ 7 }
    ensures each { (i : ℕ) → i < count → slice_index result i ≡ slice_index outer.now (slice_index inner.now i) }
{
    let mut read = [0; MOST];
    for i in 0..usize::from(count) {
        read[i] = outer[usize::from(inner[i])];
    }
    read
}
