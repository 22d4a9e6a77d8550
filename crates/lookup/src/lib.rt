// Lookups: whether a row or a beat is warped, fake or judgable; one question at a time, or many rows after one test of the lists.
#![tactic(auto)]

ghost use Rattle.std.specs.Prelude.{◌≡◌, ◌+◌, ◌-◌, ◌<◌, ◌≤◌, true, false, not, length, ℤ};
ghost use Rattle.std.specs.Float.{nan};
ghost use Rattle.columns.specs.Each.{laid_each};
ghost use Rattle.picks.specs.Pick.{pick};
ghost use Rattle.limits.specs.Numbers.{range_of, in_range, every, row_in};
ghost use Rattle.rows.specs.RowKey.{row_key};
ghost use Rattle.lookup_tests.specs.LookupLists.{list_columns, warp_lists, lookup_lists};
ghost use Rattle.lookup_tests.specs.Refused.{rows_rise, warp_number, fake_number, judgable_number};
ghost use Rattle.lookup.specs.Lookups.{is_paused, is_warped, is_fake, is_judgable, asked_row, looked, byte, Judged};
ghost use Rattle.lookup.specs.inside.Finding.{Usable, AllUsable, Split, Between, key_before, key_after, Stands, PlaceStands};
ghost use Rattle.lookup.specs.inside.Finding.{span_covers, start_of, warp_end, fake_end, Holds, HeldStands, AllStand};

use columns::Outcome;
use limits::Kind;

// ---- where the entries at or before a row end

#[derive(Clone, Copy)]
struct Bounds {
    low: usize,
    high: usize,
}

fn halve(beats: &[f32], key: u32, low: usize, high: usize) -> Bounds
    requires beats_value { rows_rise beats.now ≡ true }
    requires low_lt_high { (low < high) × (high ≤ length beats.now) × Between key beats.now low high }
    ensures { Between key beats.now result.low result.high × (result.high ≤ high) × (result.high - result.low < high - low) }
{
    let middle = low + (high - low) / 2;
    if rows::row_key_f32(beats[middle]) <= key {
        return Bounds {
            low: middle + 1,
            high: high,
        };
    }
    Bounds {
        low: low,
        high: middle,
    }
}

// How many entries are at or before a row.
fn count_at(beats: &[f32], key: u32) -> usize
    requires { rows_rise beats.now ≡ true }
    ensures { Split key beats.now result }
{
    let mut low: usize = 0;
    let mut high = beats.len();
    while low < high {
        let bounds = halve(beats, key, low, high);
        low = bounds.low;
        high = bounds.high;
    }
    low
}

// ---- where a row stands in a list

// How many entries are at or before each row from the key `from` up to the key `until`, and not at it.
#[derive(Clone, Copy)]
struct Place {
    count: usize,
    from: u32,
    until: u32,
}

// The row of the last of the first n entries; the lowest key where there is none.
fn key_before(beats: &[f32], n: usize) -> u32
    requires { n ≤ length beats.now }
    ensures { result ≡ key_before beats.now n }
{
    if n == 0 {
        return 0;
    }
    rows::row_key_f32(beats[n - 1])
}

// The row of the entry after them; the highest key where there is none.
fn key_after(beats: &[f32], n: usize) -> u32
    ensures { result ≡ key_after beats.now n }
{
    if n < beats.len() {
        return rows::row_key_f32(beats[n]);
    }
    4294967295
}

fn place_after(beats: &[f32], n: usize) -> Place
    requires { n ≤ length beats.now }
    ensures { (result.count ≡ n) × PlaceStands beats.now result }
{
    Place {
        count: n,
        from: key_before(beats, n),
        until: key_after(beats, n),
    }
}

// The place of a row, by halves.
fn place_of(beats: &[f32], key: u32) -> Place
    requires { rows_rise beats.now ≡ true }
    ensures { PlaceStands beats.now result × Split key beats.now result.count }
{
    place_after(beats, count_at(beats, key))
}

// The same, on from a place that it is not before.
fn place_on(beats: &[f32], count: usize, from: u32, until: u32, key: u32) -> Place
    requires beats_value { rows_rise beats.now ≡ true }
    requires stands { Stands beats.now count from until × (from ≤ key) }
    ensures { PlaceStands beats.now result × Split key beats.now result.count }
{
    let mut n = count;
    let mut before = from;
    let mut next = until;
    while next <= key {
        if n == beats.len() {
            return Place {
                count: n,
                from: before,
                until: next,
            };
        }
        n += 1;
        before = next;
        next = key_after(beats, n);
    }
    Place {
        count: n,
        from: before,
        until: next,
    }
}

// The same, from any place.
fn move_place(beats: &[f32], count: usize, from: u32, until: u32, key: u32) -> Place
    requires beats_value { rows_rise beats.now ≡ true }
    requires stands { Stands beats.now count from until }
    ensures { PlaceStands beats.now result × Split key beats.now result.count }
{
    if key < from {
        return place_of(beats, key);
    }
    place_on(beats, count, from, until, key)
}

// The same: most rows have the place of the row before them, which is seen here, so that only what moves is a call.
fn reach(beats: &[f32], count: usize, from: u32, until: u32, key: u32) -> Place
    requires beats_value { rows_rise beats.now ≡ true }
    requires stands { Stands beats.now count from until }
    ensures { PlaceStands beats.now result × Split key beats.now result.count }
{
    if key < from {
        return move_place(beats, count, from, until, key);
    }
    if key >= until {
        return move_place(beats, count, from, until, key);
    }
    Place {
        count: count,
        from: from,
        until: until,
    }
}

// ---- an entry's test

// Whether a beat is from the start on and before the end.
fn covers(start: f32, end: f32, at: f32) -> bool
    ensures { result ≡ span_covers start end at }
{
    if start <= at {
        return at < end;
    }
    false
}

// The beat of the last of the first n entries; a NaN, from which on there is no beat, where there is none.
fn start_of(beats: &[f32], n: usize) -> f32
    requires { n ≤ length beats.now }
    ensures { result ≡ start_of beats.now n }
{
    if n == 0 {
        return 0.0 / 0.0;
    }
    beats[n - 1]
}

// The end of the last of the first n warps; a NaN, before which there is no beat, where it covers nothing.
fn warp_end(warp_beats: &[f32], warp_lengths: &[f32], n: usize) -> f32
    requires { (length warp_beats.now ≡ length warp_lengths.now) × (n ≤ length warp_beats.now) }
    ensures { result ≡ warp_end warp_beats.now warp_lengths.now n }
{
    if n == 0 {
        return 0.0 / 0.0;
    }
    if warp_lengths[n - 1] > 0.0 {
        return warp_beats[n - 1] + warp_lengths[n - 1];
    }
    0.0 / 0.0
}

// The end of the last of the first n fakes.
fn fake_end(fake_beats: &[f32], fake_lengths: &[f32], n: usize) -> f32
    requires { (length fake_beats.now ≡ length fake_lengths.now) × (n ≤ length fake_beats.now) }
    ensures { result ≡ fake_end fake_beats.now fake_lengths.now n }
{
    if n == 0 {
        return 0.0 / 0.0;
    }
    ieee::narrow_f64(
        std::num::f32_to_f64_with_nan(fake_beats[n - 1])
            + std::num::f32_to_f64_with_nan(fake_lengths[n - 1]),
    )
}

// Whether an entry above 0 is on the row of a place.
fn is_paused(beats: &[f32], values: &[f32], place: Place, key: u32) -> bool
    requires { Usable beats.now values.now × PlaceStands beats.now place × Split key beats.now place.count }
    ensures { result ≡ is_paused key beats.now values.now }
{
    if place.from != key {
        return false;
    }
    let n = place.count;
    if n == 0 {
        return false;
    }
    values[n - 1] > 0.0
}

// Whether no entry above 0 of either list is on a row.
fn is_unpaused(
    stop_beats: &[f32],
    stop_values: &[f32],
    delay_beats: &[f32],
    delay_values: &[f32],
    stops: Place,
    delays: Place,
    key: u32,
) -> bool
    requires usable { Usable stop_beats.now stop_values.now × PlaceStands stop_beats.now stops × Split key stop_beats.now stops.count }
    requires usable_2 { Usable delay_beats.now delay_values.now × PlaceStands delay_beats.now delays × Split key delay_beats.now delays.count }
    ensures { let stopped = is_paused key stop_beats.now stop_values.now in
        let delayed = is_paused key delay_beats.now delay_values.now in
        result ≡ pick stopped false (not delayed) }
{
    if is_paused(stop_beats, stop_values, stops, key) {
        return false;
    }
    !is_paused(delay_beats, delay_values, delays, key)
}

// ---- one question, of lists that can be looked into

// Whether a row is warped, where the warps at or before it are counted.
fn warped_after(
    stop_beats: &[f32],
    stop_values: &[f32],
    delay_beats: &[f32],
    delay_values: &[f32],
    warp_beats: &[f32],
    warp_lengths: &[f32],
    n: usize,
    row: i32,
) -> bool
    requires { Usable stop_beats.now stop_values.now × Usable delay_beats.now delay_values.now
        × Usable warp_beats.now warp_lengths.now × Split (row_key row) warp_beats.now n }
    ensures { let lists = warp_lists stop_beats.now stop_values.now delay_beats.now delay_values.now
        warp_beats.now warp_lengths.now in
        result ≡ is_warped lists row }
{
    let key = rows::key_of_row(row);
    if covers(
        start_of(warp_beats, n),
        warp_end(warp_beats, warp_lengths, n),
        rows::note_row_to_beat_f32(row),
    ) {
        return is_unpaused(
            stop_beats,
            stop_values,
            delay_beats,
            delay_values,
            place_of(stop_beats, key),
            place_of(delay_beats, key),
            key,
        );
    }
    false
}

// Whether a row is fake, where the fakes at or before it are counted.
fn fake_after(fake_beats: &[f32], fake_lengths: &[f32], n: usize, row: i32) -> bool
    requires { Usable fake_beats.now fake_lengths.now × Split (row_key row) fake_beats.now n }
    ensures { result ≡ is_fake (list_columns fake_beats.now fake_lengths.now) row }
{
    covers(
        start_of(fake_beats, n),
        fake_end(fake_beats, fake_lengths, n),
        rows::note_row_to_beat_f32(row),
    )
}

fn judgable_after(
    stop_beats: &[f32],
    stop_values: &[f32],
    delay_beats: &[f32],
    delay_values: &[f32],
    warp_beats: &[f32],
    warp_lengths: &[f32],
    fake_beats: &[f32],
    fake_lengths: &[f32],
    warps: usize,
    fakes: usize,
    row: i32,
) -> bool
    requires fact { let lists = lookup_lists stop_beats.now stop_values.now delay_beats.now delay_values.now
        warp_beats.now warp_lengths.now fake_beats.now fake_lengths.now in
        AllUsable lists }
    requires split { Split (row_key row) warp_beats.now warps × Split (row_key row) fake_beats.now fakes }
    ensures { let lists = lookup_lists stop_beats.now stop_values.now delay_beats.now delay_values.now
        warp_beats.now warp_lengths.now fake_beats.now fake_lengths.now in
        result ≡ is_judgable lists row }
{
    if warped_after(
        stop_beats,
        stop_values,
        delay_beats,
        delay_values,
        warp_beats,
        warp_lengths,
        warps,
        row,
    ) {
        return false;
    }
    !fake_after(fake_beats, fake_lengths, fakes, row)
}

// ---- the calls

// The refusal number, 0 where the question is taken, and the answer: no after a refusal.
#[repr(C)]
#[derive(Clone, Copy)]
pub struct Looked {
    pub number: u32,
    pub yes: bool,
}

fn look_up_warp(
    stop_beats: &[f32],
    stop_values: &[f32],
    delay_beats: &[f32],
    delay_values: &[f32],
    warp_beats: &[f32],
    warp_lengths: &[f32],
    allowed: bool,
    row: i32,
) -> Looked
    ensures { let lists = warp_lists stop_beats.now stop_values.now delay_beats.now delay_values.now
        warp_beats.now warp_lengths.now in
        result ≡ looked (warp_number lists allowed) (is_warped lists row) }
{
    let number = lookup_tests::warp_number(
        stop_beats,
        stop_values,
        delay_beats,
        delay_values,
        warp_beats,
        warp_lengths,
        allowed,
    );
    if number != limits::TAKEN {
        return Looked {
            number: number,
            yes: false,
        };
    }
    let n = count_at(warp_beats, rows::key_of_row(row));
    let yes = warped_after(
        stop_beats,
        stop_values,
        delay_beats,
        delay_values,
        warp_beats,
        warp_lengths,
        n,
        row,
    );
    Looked {
        number: limits::TAKEN,
        yes: yes,
    }
}

fn look_up_fake(fake_beats: &[f32], fake_lengths: &[f32], allowed: bool, row: i32) -> Looked
    ensures { let fakes = list_columns fake_beats.now fake_lengths.now in
        result ≡ looked (fake_number fakes allowed) (is_fake fakes row) }
{
    let number = lookup_tests::fake_number(fake_beats, fake_lengths, allowed);
    if number != limits::TAKEN {
        return Looked {
            number: number,
            yes: false,
        };
    }
    let n = count_at(fake_beats, rows::key_of_row(row));
    let yes = fake_after(fake_beats, fake_lengths, n, row);
    Looked {
        number: limits::TAKEN,
        yes: yes,
    }
}

fn look_up_judgable(
    stop_beats: &[f32],
    stop_values: &[f32],
    delay_beats: &[f32],
    delay_values: &[f32],
    warp_beats: &[f32],
    warp_lengths: &[f32],
    fake_beats: &[f32],
    fake_lengths: &[f32],
    allowed: bool,
    row: i32,
) -> Looked
    ensures { let lists = lookup_lists stop_beats.now stop_values.now delay_beats.now delay_values.now
        warp_beats.now warp_lengths.now fake_beats.now fake_lengths.now in
        result ≡ looked (judgable_number lists allowed) (is_judgable lists row) }
{
    let number = lookup_tests::judgable_number(
        stop_beats,
        stop_values,
        delay_beats,
        delay_values,
        warp_beats,
        warp_lengths,
        fake_beats,
        fake_lengths,
        allowed,
    );
    if number != limits::TAKEN {
        return Looked {
            number: number,
            yes: false,
        };
    }
    let warps = count_at(warp_beats, rows::key_of_row(row));
    let fakes = count_at(fake_beats, rows::key_of_row(row));
    let yes = judgable_after(
        stop_beats,
        stop_values,
        delay_beats,
        delay_values,
        warp_beats,
        warp_lengths,
        fake_beats,
        fake_lengths,
        warps,
        fakes,
        row,
    );
    Looked {
        number: limits::TAKEN,
        yes: yes,
    }
}

// The row of an asked beat.
pub fn asked_row(beat: f64) -> i32
    ensures { result ≡ asked_row beat }
{
    rows::beat_to_note_row_f32(ieee::narrow_f64(beat))
}

// Whether a row is warped: the last warp at or before it reaches beyond it, and no positive stop or delay is on it. As each question below it is
// refused with the lowest of 1 to 5 that a list answers, and with 3 for a row or beat beyond the limit.
pub fn is_warp_at_row(
    stop_beats: &[f32],
    stop_values: &[f32],
    delay_beats: &[f32],
    delay_values: &[f32],
    warp_beats: &[f32],
    warp_lengths: &[f32],
    row: i32,
) -> Looked
    ensures { let lists = warp_lists stop_beats.now stop_values.now delay_beats.now delay_values.now
        warp_beats.now warp_lengths.now in
        result ≡ looked (warp_number lists (row_in row)) (is_warped lists row) }
{
    look_up_warp(
        stop_beats,
        stop_values,
        delay_beats,
        delay_values,
        warp_beats,
        warp_lengths,
        limits::row_taken(row),
        row,
    )
}

// Whether the row of a beat is warped.
pub fn is_warp_at_beat(
    stop_beats: &[f32],
    stop_values: &[f32],
    delay_beats: &[f32],
    delay_values: &[f32],
    warp_beats: &[f32],
    warp_lengths: &[f32],
    beat: f64,
) -> Looked
    ensures { let lists = warp_lists stop_beats.now stop_values.now delay_beats.now delay_values.now
        warp_beats.now warp_lengths.now in
        result ≡ looked (warp_number lists (in_range (range_of Kind.Beat) beat)) (is_warped lists (asked_row beat)) }
{
    look_up_warp(
        stop_beats,
        stop_values,
        delay_beats,
        delay_values,
        warp_beats,
        warp_lengths,
        limits::taken(Kind::Beat, beat),
        asked_row(beat),
    )
}

// Whether a row is fake: the last fake at or before it reaches beyond it.
pub fn is_fake_at_row(fake_beats: &[f32], fake_lengths: &[f32], row: i32) -> Looked
    ensures { let fakes = list_columns fake_beats.now fake_lengths.now in
        result ≡ looked (fake_number fakes (row_in row)) (is_fake fakes row) }
{
    look_up_fake(fake_beats, fake_lengths, limits::row_taken(row), row)
}

// Whether the row of a beat is fake.
pub fn is_fake_at_beat(fake_beats: &[f32], fake_lengths: &[f32], beat: f64) -> Looked
    ensures { let fakes = list_columns fake_beats.now fake_lengths.now in
        result ≡ looked (fake_number fakes (in_range (range_of Kind.Beat) beat)) (is_fake fakes (asked_row beat)) }
{
    look_up_fake(
        fake_beats,
        fake_lengths,
        limits::taken(Kind::Beat, beat),
        asked_row(beat),
    )
}

// Whether a note on a row is judged: the row is neither warped nor fake.
pub fn is_judgable_at_row(
    stop_beats: &[f32],
    stop_values: &[f32],
    delay_beats: &[f32],
    delay_values: &[f32],
    warp_beats: &[f32],
    warp_lengths: &[f32],
    fake_beats: &[f32],
    fake_lengths: &[f32],
    row: i32,
) -> Looked
    ensures { let lists = lookup_lists stop_beats.now stop_values.now delay_beats.now delay_values.now
        warp_beats.now warp_lengths.now fake_beats.now fake_lengths.now in
        result ≡ looked (judgable_number lists (row_in row)) (is_judgable lists row) }
{
    look_up_judgable(
        stop_beats,
        stop_values,
        delay_beats,
        delay_values,
        warp_beats,
        warp_lengths,
        fake_beats,
        fake_lengths,
        limits::row_taken(row),
        row,
    )
}

// Whether a note on the row of a beat is judged.
pub fn is_judgable_at_beat(
    stop_beats: &[f32],
    stop_values: &[f32],
    delay_beats: &[f32],
    delay_values: &[f32],
    warp_beats: &[f32],
    warp_lengths: &[f32],
    fake_beats: &[f32],
    fake_lengths: &[f32],
    beat: f64,
) -> Looked
    ensures { let lists = lookup_lists stop_beats.now stop_values.now delay_beats.now delay_values.now
        warp_beats.now warp_lengths.now fake_beats.now fake_lengths.now in
        result ≡ looked (judgable_number lists (in_range (range_of Kind.Beat) beat)) (is_judgable lists (asked_row beat)) }
{
    look_up_judgable(
        stop_beats,
        stop_values,
        delay_beats,
        delay_values,
        warp_beats,
        warp_lengths,
        fake_beats,
        fake_lengths,
        limits::taken(Kind::Beat, beat),
        asked_row(beat),
    )
}

// ---- many rows

// A place in warps or fakes, and what the last entry covers.
#[derive(Clone, Copy)]
struct Held {
    count: usize,
    from: u32,
    until: u32,
    start: f32,
    end: f32,
}

// The place of a row in each list, and its answer. Stops and delays are only looked into in a warp.
#[derive(Clone, Copy)]
struct Cursor {
    stops: Place,
    delays: Place,
    warps: Held,
    fakes: Held,
    answer: u8,
}

fn byte_of(answer: bool) -> u8
    ensures { result ≡ byte answer }
{
    if answer { 1 } else { 0 }
}

fn warp_at(warp_beats: &[f32], warp_lengths: &[f32], count: usize, from: u32, until: u32) -> Held
    requires { (length warp_beats.now ≡ length warp_lengths.now) × Stands warp_beats.now count from until }
    ensures { (result.count ≡ count) × HeldStands warp_end warp_beats.now warp_lengths.now result }
{
    Held {
        count: count,
        from: from,
        until: until,
        start: start_of(warp_beats, count),
        end: warp_end(warp_beats, warp_lengths, count),
    }
}

// The place of a row in warps, from the place of another row.
fn reach_warp(
    warp_beats: &[f32],
    warp_lengths: &[f32],
    count: usize,
    from: u32,
    until: u32,
    start: f32,
    end: f32,
    key: u32,
) -> Held
    requires { Usable warp_beats.now warp_lengths.now × Holds warp_end warp_beats.now warp_lengths.now count from until start end }
    ensures { HeldStands warp_end warp_beats.now warp_lengths.now result × Split key warp_beats.now result.count }
{
    let place = reach(warp_beats, count, from, until, key);
    if place.count == count {
        return Held {
            count: count,
            from: place.from,
            until: place.until,
            start: start,
            end: end,
        };
    }
    warp_at(
        warp_beats,
        warp_lengths,
        place.count,
        place.from,
        place.until,
    )
}

fn fake_at(fake_beats: &[f32], fake_lengths: &[f32], count: usize, from: u32, until: u32) -> Held
    requires { (length fake_beats.now ≡ length fake_lengths.now) × Stands fake_beats.now count from until }
    ensures { (result.count ≡ count) × HeldStands fake_end fake_beats.now fake_lengths.now result }
{
    Held {
        count: count,
        from: from,
        until: until,
        start: start_of(fake_beats, count),
        end: fake_end(fake_beats, fake_lengths, count),
    }
}

// The place of a row in fakes, from the place of another row.
fn reach_fake(
    fake_beats: &[f32],
    fake_lengths: &[f32],
    count: usize,
    from: u32,
    until: u32,
    start: f32,
    end: f32,
    key: u32,
) -> Held
    requires { Usable fake_beats.now fake_lengths.now × Holds fake_end fake_beats.now fake_lengths.now count from until start end }
    ensures { HeldStands fake_end fake_beats.now fake_lengths.now result × Split key fake_beats.now result.count }
{
    let place = reach(fake_beats, count, from, until, key);
    if place.count == count {
        return Held {
            count: count,
            from: place.from,
            until: place.until,
            start: start,
            end: end,
        };
    }
    fake_at(
        fake_beats,
        fake_lengths,
        place.count,
        place.from,
        place.until,
    )
}

// Whether a row is neither warped nor fake.
fn neither(warped: bool, fake: bool) -> bool
    ensures { result ≡ pick warped false (not fake) }
{
    if warped {
        return false;
    }
    !fake
}

fn first_cursor(
    stop_beats: &[f32],
    stop_values: &[f32],
    delay_beats: &[f32],
    delay_values: &[f32],
    warp_beats: &[f32],
    warp_lengths: &[f32],
    fake_beats: &[f32],
    fake_lengths: &[f32],
) -> Cursor
    requires { let lists = lookup_lists stop_beats.now stop_values.now delay_beats.now delay_values.now
        warp_beats.now warp_lengths.now fake_beats.now fake_lengths.now in
        AllUsable lists }
    ensures { let lists = lookup_lists stop_beats.now stop_values.now delay_beats.now delay_values.now
        warp_beats.now warp_lengths.now fake_beats.now fake_lengths.now in
        AllStand lists result }
{
    let warps = place_after(warp_beats, 0);
    let fakes = place_after(fake_beats, 0);
    Cursor {
        stops: place_after(stop_beats, 0),
        delays: place_after(delay_beats, 0),
        warps: warp_at(
            warp_beats,
            warp_lengths,
            warps.count,
            warps.from,
            warps.until,
        ),
        fakes: fake_at(
            fake_beats,
            fake_lengths,
            fakes.count,
            fakes.from,
            fakes.until,
        ),
        answer: 0,
    }
}

fn judge(
    stop_beats: &[f32],
    stop_values: &[f32],
    delay_beats: &[f32],
    delay_values: &[f32],
    warp_beats: &[f32],
    warp_lengths: &[f32],
    fake_beats: &[f32],
    fake_lengths: &[f32],
    cursor: Cursor,
    row: i32,
) -> Cursor
    requires { let lists = lookup_lists stop_beats.now stop_values.now delay_beats.now delay_values.now
        warp_beats.now warp_lengths.now fake_beats.now fake_lengths.now in
        AllUsable lists × AllStand lists cursor }
    ensures { let lists = lookup_lists stop_beats.now stop_values.now delay_beats.now delay_values.now
        warp_beats.now warp_lengths.now fake_beats.now fake_lengths.now in
        AllStand lists result × (result.answer ≡ byte (is_judgable lists row)) }
{
    let key = rows::key_of_row(row);
    let at = rows::note_row_to_beat_f32(row);
    let warps = reach_warp(
        warp_beats,
        warp_lengths,
        cursor.warps.count,
        cursor.warps.from,
        cursor.warps.until,
        cursor.warps.start,
        cursor.warps.end,
        key,
    );
    let fakes = reach_fake(
        fake_beats,
        fake_lengths,
        cursor.fakes.count,
        cursor.fakes.from,
        cursor.fakes.until,
        cursor.fakes.start,
        cursor.fakes.end,
        key,
    );
    let is_fake = covers(fakes.start, fakes.end, at);
    if !covers(warps.start, warps.end, at) {
        let stops = cursor.stops;
        let delays = cursor.delays;
        return Cursor {
            stops: stops,
            delays: delays,
            warps: warps,
            fakes: fakes,
            answer: byte_of(!is_fake),
        };
    }
    let stops = reach(
        stop_beats,
        cursor.stops.count,
        cursor.stops.from,
        cursor.stops.until,
        key,
    );
    let delays = reach(
        delay_beats,
        cursor.delays.count,
        cursor.delays.from,
        cursor.delays.until,
        key,
    );
    let unpaused = is_unpaused(
        stop_beats,
        stop_values,
        delay_beats,
        delay_values,
        stops,
        delays,
        key,
    );
    Cursor {
        stops: stops,
        delays: delays,
        warps: warps,
        fakes: fakes,
        answer: byte_of(neither(unpaused, is_fake)),
    }
}

fn judge_rows(
    stop_beats: &[f32],
    stop_values: &[f32],
    delay_beats: &[f32],
    delay_values: &[f32],
    warp_beats: &[f32],
    warp_lengths: &[f32],
    fake_beats: &[f32],
    fake_lengths: &[f32],
    rows: &[i32],
    out: &mut [u8],
)
    requires fact { let lists = lookup_lists stop_beats.now stop_values.now delay_beats.now delay_values.now
        warp_beats.now warp_lengths.now fake_beats.now fake_lengths.now in
        AllUsable lists }
    requires rows_in_bounds { length rows.now ≤ length out.old }
    ensures { let lists = lookup_lists stop_beats.now stop_values.now delay_beats.now delay_values.now
        warp_beats.now warp_lengths.now fake_beats.now fake_lengths.now in
        out.new ≡ laid_each (λ (asked : ℤ). byte (is_judgable lists asked)) rows.now out.old }
{
    let mut cursor = first_cursor(
        stop_beats,
        stop_values,
        delay_beats,
        delay_values,
        warp_beats,
        warp_lengths,
        fake_beats,
        fake_lengths,
    );
    for (i, &row) in rows.iter().enumerate() {
        cursor = judge(
            stop_beats,
            stop_values,
            delay_beats,
            delay_values,
            warp_beats,
            warp_lengths,
            fake_beats,
            fake_lengths,
            cursor,
            row,
        );
        out[i] = cursor.answer;
    }
}

// 1 for each row that is judgable and 0 for each that is not, over the front of the room. Refused as the single question is, with 3 where
// any row is beyond the limit, and with 7 where there are more rows than places.
pub fn judgable_rows(
    stop_beats: &[f32],
    stop_values: &[f32],
    delay_beats: &[f32],
    delay_values: &[f32],
    warp_beats: &[f32],
    warp_lengths: &[f32],
    fake_beats: &[f32],
    fake_lengths: &[f32],
    rows: &[i32],
    out: &mut [u8],
) -> Outcome
    ensures { let lists = lookup_lists stop_beats.now stop_values.now delay_beats.now delay_values.now
        warp_beats.now warp_lengths.now fake_beats.now fake_lengths.now in
        Judged (judgable_number lists (every row_in rows.now)) (is_judgable lists) rows.now result out.old out.new }
{
    let number = lookup_tests::judgable_number(
        stop_beats,
        stop_values,
        delay_beats,
        delay_values,
        warp_beats,
        warp_lengths,
        fake_beats,
        fake_lengths,
        lookup_tests::rows_taken(rows),
    );
    if number != limits::TAKEN {
        return columns::refused(number);
    }
    if rows.len() > out.len() {
        return columns::refused(limits::NO_ROOM);
    }
    judge_rows(
        stop_beats,
        stop_values,
        delay_beats,
        delay_values,
        warp_beats,
        warp_lengths,
        fake_beats,
        fake_lengths,
        rows,
        out,
    );
    Outcome {
        number: limits::TAKEN,
        count: rows.len(),
    }
}
