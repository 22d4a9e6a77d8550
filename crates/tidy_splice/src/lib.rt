// A column with a part replaced: of numbers, and of a speed's units.
#![tactic(auto)]

ghost use Rattle.std.specs.Prelude.{◌≡◌, ◌∷◌, ◌++◌, ◌≤◌, ◌<◌, length, take, drop};
ghost use Rattle.order.specs.Order.{laid};
ghost use Rattle.tidy_kept.specs.Changing.{spliced_in};

// x at a place of the first n, those behind it one place on.
fn open_place(column: &mut [f64], n: usize, at: usize, x: f64)
    requires { (at ≤ n) × (n < length column.old) }
    ensures { column.new ≡ laid (take at (take n column.old) ++ (x ∷ drop at (take n column.old))) column.old }
{
    for i in (at..n).rev() {
        column[i + 1] = column[i];
    }
    column[at] = x;
}

// The first n without the places from low up to high.
fn close_gap(column: &mut [f64], n: usize, low: usize, high: usize)
    requires { (low ≤ high) × (high ≤ n) × (n < length column.old) }
    ensures { column.new ≡ laid (take low (take n column.old) ++ drop high (take n column.old)) column.old }
{
    if low < high {
        for i in high..n {
            column[low + (i - high)] = column[i];
        }
    }
}

// The first n of a column without the places from low up to high, and where one comes with x there. Nothing is done where these do not fit, or nothing is behind the first n.
pub fn splice(column: &mut [f64], n: usize, low: usize, high: usize, comes: bool, x: f64)
    ensures { column.new ≡ spliced_in n low high comes x column.old }
{
    if n < column.len() {
        if high <= n {
            if low <= high {
                if comes {
                    if low == high {
                        open_place(column, n, low, x);
                        return;
                    }
                    column[low] = x;
                    close_gap(column, n, low + 1, high);
                    return;
                }
                close_gap(column, n, low, high);
            }
        }
    }
}

// ---- units

// A unit at a place of the first n, those behind it one place on.
fn open_unit(column: &mut [u8], n: usize, at: usize, x: u8)
    requires { (at ≤ n) × (n < length column.old) }
    ensures { column.new ≡ laid (take at (take n column.old) ++ (x ∷ drop at (take n column.old))) column.old }
{
    for i in (at..n).rev() {
        column[i + 1] = column[i];
    }
    column[at] = x;
}

// The first n without the places from low up to high.
fn close_units(column: &mut [u8], n: usize, low: usize, high: usize)
    requires { (low ≤ high) × (high ≤ n) × (n < length column.old) }
    ensures { column.new ≡ laid (take low (take n column.old) ++ drop high (take n column.old)) column.old }
{
    if low < high {
        for i in high..n {
            column[low + (i - high)] = column[i];
        }
    }
}

// `splice` of a column of units.
pub fn splice_units(column: &mut [u8], n: usize, low: usize, high: usize, comes: bool, x: u8)
    ensures { column.new ≡ spliced_in n low high comes x column.old }
{
    if n < column.len() {
        if high <= n {
            if low <= high {
                if comes {
                    if low == high {
                        open_unit(column, n, low, x);
                        return;
                    }
                    column[low] = x;
                    close_units(column, n, low + 1, high);
                    return;
                }
                close_units(column, n, low, high);
            }
        }
    }
}
