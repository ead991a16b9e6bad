ghost use Rattle.std.specs.Prelude.{◌≡◌, ◌≤◌, ◌<◌, ◌*◌, ◌/◌, ◌%◌, ◌^◌, length, true, pos, if◌then◌else◌};
ghost use Rattle.pf_values.specs.Meaning.Small.{IsSmall};
ghost use Rattle.pf_lanes.specs.Meaning.Lanes.{bytes_of, made, word};
ghost use Rattle.pf_lanes.specs.Meaning.Places.{place_of, is_first, turn, is_whole};
ghost use Rattle.pf_lanes.specs.Meaning.Recipes.{taken, has_room, have_room, lane_value, computed};

use crate::lanes::{LaneWise, fill, lane};
use crate::works::{Work, value_of_one, value_of_three, value_of_two};
use pf_ints::LaneType;

/// Which lane of an operand goes into each lane of the result.
#[derive(Clone, Copy)]
pub enum Place {
    /// The one at the same place.
    Same,
    /// The one so many places further on.
    From(u8),
    /// Every second lane: those at even places, and those at odd ones.
    Even,
    Odd,
    /// The first lane, for all.
    First,
    /// The first of each two runs of so many lanes, and the second.
    Lower(u8),
    Upper(u8),
}

/// Lanes of a vector: of which type, and which of them.
#[derive(Clone, Copy)]
pub struct View {
    pub ty: LaneType,
    pub place: Place,
}

/// What an instruction takes from its vectors for each lane of the result.
#[derive(Clone, Copy)]
pub enum Operands {
    /// One lane of the first vector.
    One(View),
    /// One of the first and one of the second.
    Two(View, View),
    /// One of each of three.
    Three(View, View, View),
    /// One of the first or of the second: for so many lanes each, in turn.
    InTurn(u8, View, View),
}

/// How an instruction makes lanes: what it takes, what becomes of it, and the type of the result.
#[derive(Clone, Copy)]
pub struct Recipe {
    pub operands: Operands,
    pub work: Work,
    pub to: LaneType,
}

fn place_of(place: Place, i: usize, _count: usize) -> usize
    requires whole { is_whole place _count ≡ true }
    requires fits { place_of place i < 2 ^ 64 }
    ensures { result ≡ place_of place i }
{
    match place {
        Place::Same => i,
        Place::From(first) => usize::from(first) + i,
        Place::Even => 2 * i,
        Place::Odd => 2 * i + 1,
        Place::First => 0,
        Place::Lower(run) => {
            let run = usize::from(run);
            2 * (i / run * run) + i % run
        }
        Place::Upper(run) => {
            let run = usize::from(run);
            2 * (i / run * run) + run + i % run
        }
    }
}

// The lane of a vector that goes into lane `i` of `count`.
fn taken(view: View, vector: &[u8], i: usize, count: usize) -> i128
    requires inside { i < count }
    requires room { has_room view (length vector.now) count ≡ true }
    ensures value { result ≡ taken view vector.now i }
    ensures small { IsSmall result }
{
    lane(vector, view.ty, place_of(view.place, i, count))
}

fn taken_in_turn(
    run: u8,
    views: (View, View),
    first: &[u8],
    second: &[u8],
    i: usize,
    count: usize,
) -> i128
    requires inside { i < count }
    requires some { 1 ≤ run }
    requires whole { count % (2 * run) ≡ 0 }
    requires first { has_room views.0 (length first.now) (count / 2) ≡ true }
    requires second { has_room views.1 (length second.now) (count / 2) ≡ true }
    ensures value { result ≡ (if is_first run i then taken views.0 first.now (turn run i) else taken views.1 second.now (turn run i)) }
    ensures small { IsSmall result }
{
    let run = usize::from(run);
    let place = i / run / 2 * run + i % run;
    if i / run % 2 == 0 {
        taken(views.0, first, place, count / 2)
    } else {
        taken(views.1, second, place, count / 2)
    }
}

/// A recipe with its amount and its vectors.
#[derive(Drop)]
struct Source<'a> {
    recipe: Recipe,
    amount: u8,
    first: &'a [u8],
    second: &'a [u8],
    third: &'a [u8],
    count: usize,
    ghost small: { amount < 64 },
    ghost room: { have_room recipe.operands (length first.now) (length second.now) (length third.now) count ≡ true },
}

impl LaneWise for Source<'_> {
    ghost at = { λ s i. lane_value s.recipe s.amount s.first.now s.second.now s.third.now i };

    ghost many = { λ s. s.count };

    fn lane_at(&self, i: usize) -> i128 {
        let (work, to, k, n) = (self.recipe.work, self.recipe.to, self.amount, self.count);
        match self.recipe.operands {
            Operands::One(a) => value_of_one(work, to, k, taken(a, self.first, i, n)),
            Operands::Two(a, b) => {
                let x = taken(a, self.first, i, n);
                value_of_two(work, to, k, x, taken(b, self.second, i, n))
            }
            Operands::Three(a, b, c) => {
                let x = taken(a, self.first, i, n);
                let y = taken(b, self.second, i, n);
                value_of_three(work, to, k, x, y, taken(c, self.third, i, n))
            }
            Operands::InTurn(run, a, b) => {
                let x = taken_in_turn(run, (a, b), self.first, self.second, i, n);
                value_of_one(work, to, k, x)
            }
        }
    }
}

/// Writes `count` lanes over all of `out`, by the recipe, an amount below 64 and three vectors, of
/// which it takes what it needs. They have to have the lanes that this takes.
pub fn compute(
    recipe: Recipe,
    amount: u8,
    first: &[u8],
    second: &[u8],
    third: &[u8],
    count: usize,
    out: &mut [u8],
)
    requires small { amount < 64 }
    requires room { have_room recipe.operands (length first.now) (length second.now) (length third.now) count ≡ true }
    requires whole { length out.old ≡ bytes_of recipe.to * count }
    ensures { out.new ≡ computed recipe amount count first.now second.now third.now }
{
    let source = Source {
        recipe,
        amount,
        first,
        second,
        third,
        count,
    };
    fill(&source, recipe.to, count, out);
}

/// One number, for each lane.
#[derive(Drop)]
struct Constant {
    n: u32,
    count: usize,
}

impl LaneWise for Constant {
    ghost use Rattle.std.specs.Prelude.{pos};

    ghost at = { λ s i. pos s.n };

    ghost many = { λ s. s.count };

    fn lane_at(&self, _i: usize) -> i128 {
        i128::from(self.n)
    }
}

/// Writes a number of 32 bits over each of `count` lanes, which are all of `out`.
pub fn spread(n: u32, count: usize, out: &mut [u8])
    requires { length out.old ≡ 4 * count }
    ensures { out.new ≡ made word count (λ i. pos n) }
{
    fill(&Constant { n, count }, LaneType::U32, count, out);
}
