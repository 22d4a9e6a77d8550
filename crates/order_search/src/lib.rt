// Places in a column of numbers that never falls: a search that makes no branch of what it finds, and the f32 to search for where an f64 is asked.
#![tactic(auto)]

ghost use Rattle.std.specs.Prelude.{◌≡◌, ℕ, ◌+◌, ◌-◌, ◌*◌, ◌<◌, ◌≤◌, length, slice_index_or};
ghost use Rattle.std.specs.Float.{nan};
ghost use Rattle.std.specs.Float.Ieee.{le};
ghost use Rattle.picks.specs.Pick.{pick};
ghost use Rattle.order_search.specs.Search.{how_many, place_of};
ghost use Rattle.order_search.specs.F32UpTo.{f32_up_to};

// Where a number stands in a column: in one that never falls, after the entries that are not above it (`place-splits`).
pub fn place_of(column: &[f32], at: f32) -> usize
    ensures { result ≡ place_of at column.now }
{
    let mut base = 0;
    let mut size = column.len();
    while size > 16 {
        let part = size / 4;
        base += part * quarters_passed(column, base, part, at);
        size -= part * 3;
    }
    base + (entries_passed(column, base, size, at) as usize)
}

// How many of three quarters have a last entry that is not above a number. Their count goes into a product, so that there is no branch to foresee.
fn quarters_passed(column: &[f32], base: usize, part: usize, at: f32) -> usize
    requires { (0 < part) × (base + part * 3 ≤ length column.now) }
    ensures { result ≡ how_many (λ (i : ℕ). le (slice_index_or column.now (base + part * (i + 1) - 1) nan) at) 3 }
{
    one_if(column[base + part - 1] <= at)
        + one_if(column[base + part * 2 - 1] <= at)
        + one_if(column[base + part * 3 - 1] <= at)
}

// How many of a few entries in a row are not above a number. Counted in as many bits as an entry has, so that several are counted at a time.
fn entries_passed(column: &[f32], base: usize, size: usize, at: f32) -> u32
    requires { (base + size ≤ length column.now) × (size ≤ 16) }
    ensures { result ≡ how_many (λ (i : ℕ). le (slice_index_or column.now (base + i) nan) at) size }
{
    let mut passed: u32 = 0;
    for &entry in &column[base..base + size] {
        passed += counted(entry <= at);
    }
    passed
}

fn one_if(yes: bool) -> usize
    ensures { (result ≡ pick yes 1 0) × (result ≤ 1) }
{
    if yes { 1 } else { 0 }
}

fn counted(yes: bool) -> u32
    ensures { (result ≡ pick yes 1 0) × (result ≤ 1) }
{
    if yes { 1 } else { 0 }
}

// The greatest f32 that is not above an f64: an f32 is at or before the one just where it is at or before the other (`f32-up-to-is-le`). A NaN gives a NaN.
pub fn f32_up_to(at: f64) -> f32
    ensures { result ≡ f32_up_to at }
{
    let near = ieee::narrow_f64(at);
    if at < std::num::f32_to_f64_with_nan(near) {
        let bits: u32 = f32::to_bits(near);
        if bits >= 0x8000_0000 {
            return f32::from_bits(bits + 1);
        }
        return f32::from_bits(bits - 1);
    }
    near
}
