// Whether each two neighbours of a column pass a test. A loop that counts what fails has no branch, and a machine does it for several entries at a time;
// one that ends at what fails costs little where that is early.
#![tactic(auto)]

ghost use Rattle.std.specs.Prelude.{◌≡◌, Float};
ghost use Rattle.std.specs.Float.Ieee.{lt};
ghost use Rattle.limits.specs.Numbers.{miss};
ghost use Rattle.limits.specs.Neighbours.{every_two, not_falling};
ghost use Rattle.columns_order.specs.Falling.{falling};

use ieee::Real;

// ---- by counting

fn not_below<R: Real>(number: R, next: R) -> usize
    ensures { result ≡ miss (λ (e : Float × Float). lt e.0 e.1) (R.number number, R.number next) }
{
    if number.is_below(next) { 0 } else { 1 }
}

// Whether each number is below the next.
pub fn rise<R: Real>(column: &[R]) -> bool
    ensures { result ≡ every_two lt (R.numbers column.now) }
{
    let mut fail: usize = 0;
    for i in 1..column.len() {
        fail += not_below(column[i - 1], column[i]);
    }
    fail == 0
}

fn above<R: Real>(number: R, next: R) -> usize
    ensures { result ≡ miss (λ (e : Float × Float). not_falling e.0 e.1) (R.number number, R.number next) }
{
    if next.is_below(number) { 1 } else { 0 }
}

// Whether no number is above the next.
pub fn never_fall<R: Real>(column: &[R]) -> bool
    ensures { result ≡ every_two not_falling (R.numbers column.now) }
{
    let mut fail: usize = 0;
    for i in 1..column.len() {
        fail += above(column[i - 1], column[i]);
    }
    fail == 0
}

// ---- up to what fails

// Whether each number is above the next. A column that rises early is told by few numbers.
pub fn falls_throughout<R: Real>(column: &[R]) -> bool
    ensures { result ≡ every_two falling (R.numbers column.now) }
{
    for i in 1..column.len() {
        if !column[i].is_below(column[i - 1]) {
            return false;
        }
    }
    true
}
