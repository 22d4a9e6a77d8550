// How many rows the warps of a timing pass over, each row once.
#![tactic(auto)]

ghost use Rattle.std.specs.Prelude.{◌≡◌, ◌-◌, max, nat_lt};
ghost use Rattle.picks.specs.Pick.{pick};
ghost use Rattle.order.specs.Entries.{entries};
ghost use Rattle.rows.specs.RowKey.{row_key_at};
ghost use Rattle.lookup_warped.specs.WarpedRows.{length_rows};
ghost use Rattle.lookup_warped.specs.OnePass.{one_pass};

// A row from its key, which is 2^31 above it; 0 for a row below 0.
fn above_zero(key: u32) -> u64
    ensures { result ≡ key - 2147483648 }
{
    if key < 2147483648 {
        return 0;
    }
    (key - 2147483648) as u64
}

// The rows that a warp of this length passes over; none where the length is not above 0.
fn length_rows(length: f32) -> u64
    ensures { result ≡ length_rows length }
{
    if length > 0.0 {
        return above_zero(rows::row_key(std::num::f32_to_f64_with_nan(length)));
    }
    0
}

// The f64 row of a start, as a key.
fn start_key(beat: f32) -> u64
    ensures { result ≡ row_key_at beat }
{
    rows::row_key(std::num::f32_to_f64_with_nan(beat)) as u64
}

// The first row of a warp that is new: the later of the furthest end so far and its start.
fn first_new(far: u64, start: u64) -> u64
    ensures { result ≡ max far start }
{
    if far < start {
        return start;
    }
    far
}

// The rows from the first new one on, before the end.
fn new_rows(first: u64, end: u64) -> u64
    ensures { result ≡ end - first }
{
    if first < end {
        return end - first;
    }
    0
}

// The furthest end behind a warp; one without a new row moves nothing.
fn furthest_end(far: u64, first: u64, end: u64) -> u64
    ensures { result ≡ pick (nat_lt first end) end far }
{
    if first < end {
        return end;
    }
    far
}

// How many rows some warp covers, for warps whose rows never fall. One that starts before an earlier one adds only what lies behind the furthest end so far.
// Columns of unlike length are read as far as the shorter goes.
pub fn warped_rows(beats: &[f32], lengths: &[f32]) -> u64
    ensures { result ≡ one_pass (entries beats.now lengths.now) }
{
    let mut rows: u64 = 0;
    let mut far: u64 = 0;
    for (i, &beat) in beats.iter().enumerate() {
        if i >= lengths.len() {
            return rows;
        }
        let start = start_key(beat);
        let end = start + length_rows(lengths[i]);
        let first = first_new(far, start);
        rows += new_rows(first, end);
        far = furthest_end(far, first, end);
    }
    rows
}
