// What the tidying of scrolls and that of speeds share: nearness, and the change that an entry makes in the kept list.
#![tactic(auto)]

ghost use Rattle.std.specs.Prelude.{◌≡◌, ◌-◌, ◌≤◌, Float};
ghost use Rattle.picks.specs.Pick.{pick};
ghost use Rattle.limits.specs.Numbers.{miss};
ghost use Rattle.limits.specs.Neighbours.{every_two};
ghost use Rattle.tidy_kept.specs.Near.{near_to, far_from};
ghost use Rattle.tidy_kept.specs.Changing.{cut, change_of};

// Whether two values are less than a millionth apart.
pub fn near(a: f64, b: f64) -> bool
    ensures { result ≡ near_to a b }
{
    limits::magnitude(a - b) < 1e-6
}

fn one_near(value: f64, next: f64) -> usize
    ensures { result ≡ miss (λ (e : Float × Float). far_from e.0 e.1) (value, next) }
{
    if near(next, value) { 1 } else { 0 }
}

// Whether no value is near the one before it: a loop that counts those has no branch.
pub fn all_apart(values: &[f64]) -> bool
    ensures { result ≡ every_two far_from values.now }
{
    let mut fail: usize = 0;
    for i in 1..values.len() {
        fail += one_near(values[i - 1], values[i]);
    }
    fail == 0
}

// ---- the change that an entry makes

// The places from low up to high go. Where something comes in their place it has the entry's beat, and the entry's value or, where the next one moves, that one's.
// Whether the kept list falls then.
#[derive(Clone, Copy)]
pub struct Change {
    pub low: usize,
    pub high: usize,
    pub comes: bool,
    pub moves: bool,
    pub falls: bool,
}

// The place before; 0 before all.
pub fn place_before(at: usize) -> usize
    ensures { result ≡ at - 1 }
{
    if at == 0 { 0 } else { at - 1 }
}

// The place of the entry that one is held against: the last up to its row, or the one before that where the last is on its row.
pub fn held_against(last: usize, on_row: bool) -> usize
    ensures { result ≡ pick on_row (last - 1) last }
{
    if on_row {
        return place_before(last);
    }
    last
}

fn cut_of(last: usize, on_row: bool) -> usize
    requires { last ≤ 1024 }
    ensures { result ≡ cut last on_row }
{
    if on_row {
        if last == 0 {
            return 1;
        }
        return last;
    }
    last + 1
}

// The change of an entry with `at` kept ones on rows up to its own. A place beyond 1,024 changes nothing.
pub fn change_of(
    at: usize,
    on_row: bool,
    near_next: bool,
    near_previous: bool,
    near_last: bool,
) -> Change
    ensures { result ≡ change_of at on_row near_next near_previous near_last }
{
    if at > limits::MOST_ENTRIES {
        return Change {
            low: 0,
            high: 0,
            comes: false,
            moves: false,
            falls: false,
        };
    }
    let last = place_before(at);
    let kept = cut_of(last, on_row);
    if near_next {
        if near_previous {
            return Change {
                low: kept,
                high: last + 2,
                comes: false,
                moves: false,
                falls: false,
            };
        }
        return Change {
            low: kept,
            high: last + 2,
            comes: true,
            moves: true,
            falls: at == 0,
        };
    }
    if near_previous {
        return Change {
            low: kept,
            high: last + 1,
            comes: false,
            moves: false,
            falls: false,
        };
    }
    if on_row {
        if near_last {
            return Change {
                low: at,
                high: at,
                comes: false,
                moves: false,
                falls: false,
            };
        }
        return Change {
            low: last,
            high: at,
            comes: true,
            moves: false,
            falls: false,
        };
    }
    Change {
        low: at,
        high: at,
        comes: true,
        moves: false,
        falls: false,
    }
}
