// What a call answers that lays a result over the front of lent columns.
#![tactic(auto)]

ghost use Rattle.std.specs.Prelude.{◌≡◌, reverse, ℕ, min, Float};
ghost use Rattle.columns.specs.Each.{laid_each};
ghost use Rattle.columns.specs.Laying.{room_number, refused_by};

// The refusal number, 0 where the call is taken, and how many entries were written.
#[repr(C)]
#[derive(Clone, Copy)]
pub struct Outcome {
    pub number: u32,
    pub count: usize,
}

// The outcome of a call that is refused.
pub fn refused(number: u32) -> Outcome
    ensures { result ≡ refused_by number }
{
    Outcome {
        number: number,
        count: 0,
    }
}

// The room of a list of two columns: the shorter.
pub fn room_of(first: usize, second: usize) -> usize
    ensures { result ≡ min first second }
{
    if first < second { first } else { second }
}

// What is made of each entry of a column: `made` says it, and the method makes it.
pub trait Each<A, B>: Copy {
    ghost made: { Self → A → B };

    fn made(self, entry: A) -> B
        ensures { result ≡ made self entry };
}

// What is made of each entry of a column, over the front of another, as far as both go.
pub fn lay_each<A: Copy, B: Copy, M: Each<A, B>>(from: &[A], to: &mut [B], each: M)
    ensures { to.new ≡ laid_each (M.made each) from.now to.old }
{
    let n = room_of(from.len(), to.len());
    for i in 0..n {
        to[i] = each.made(from[i]);
    }
}

// Each entry as it is.
#[derive(Clone, Copy)]
struct AsItIs;

impl<T> Each<T, T> for AsItIs {
    ghost made = { λ _ (x : T). x };

    fn made(self, entry: T) -> T {
        entry
    }
}

// Each entry of a column over the front of another, as far as both go.
pub fn copy<T: Copy>(from: &[T], to: &mut [T])
    ensures { to.new ≡ laid_each (λ (x : T). x) from.now to.old }
{
    lay_each(from, to, AsItIs);
}

// A column of numbers, turned round: the last number first.
pub fn copy_turned(from: &[f64], to: &mut [f64])
    ensures { to.new ≡ laid_each (λ (x : Float). x) (reverse from.now) to.old }
{
    let n = room_of(from.len(), to.len());
    for i in 0..n {
        to[i] = from[from.len() - 1 - i];
    }
}
