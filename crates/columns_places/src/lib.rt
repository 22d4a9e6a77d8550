// Columns read by places: what stands at one, and a column put together by many.
#![tactic(auto)]

ghost use Rattle.std.specs.Prelude.{◌≡◌, ℕ, get_or};
ghost use Rattle.columns.specs.Each.{laid_each};
ghost use Rattle.columns_places.specs.Beyond.{beyond_numbers, beyond_places};

use columns::Each;

// An entry of a column that is read by places, and what stands for one beyond the column's end.
pub trait Entry: Copy {
    ghost beyond: { Self };

    fn beyond() -> Self
        ensures { result ≡ beyond };
}

impl Entry for f64 {
    ghost beyond = { beyond_numbers };

    fn beyond() -> f64 {
        f64::NAN
    }
}

// A unit, a mark or a fate.
impl Entry for u8 {
    ghost beyond = { beyond_places };

    fn beyond() -> u8 {
        0
    }
}

// A place.
impl Entry for u32 {
    ghost beyond = { beyond_places };

    fn beyond() -> u32 {
        0
    }
}

// The entry at a place.
pub fn entry_at<T: Entry>(column: &[T], place: usize) -> T
    ensures { result ≡ get_or column.now place T.beyond }
{
    if place < column.len() {
        column[place]
    } else {
        T::beyond()
    }
}

// The entry of a column at each place that is given.
#[derive(Clone, Copy)]
struct At<'a, T> {
    column: &'a [T],
}

impl<'a, T: Entry> Each<u32, T> for At<'a, T> {
    ghost made = { λ at (place : ℕ). get_or at.column.now place T.beyond };

    fn made(self, place: u32) -> T {
        entry_at(self.column, place as usize)
    }
}

// The entries at many places, over the front of a room, as far as both go.
pub fn gather<T: Entry>(from: &[T], places: &[u32], to: &mut [T])
    ensures { to.new ≡ laid_each (λ (p : ℕ). get_or from.now p T.beyond) places.now to.old }
{
    columns::lay_each(places, to, At { column: from });
}
