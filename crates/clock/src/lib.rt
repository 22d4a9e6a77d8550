// The clock: at what time is this beat? A cursor goes along a timing and is handed back with each answer.
#![tactic(auto)]

ghost use Rattle.std.specs.Prelude.{◌≡◌, ◌+◌, ◌<◌, ◌≤◌, ◌^◌, length, eqb, pos, true, false, [], ◌∷◌};
ghost use Rattle.picks.specs.Pick.{pick};
ghost use Rattle.std.specs.Float.{binary64};
ghost use Rattle.std.specs.Float.Ieee.{div};
ghost use Rattle.ieee.specs.Constants.{plus_zero, sixty};
ghost use Rattle.clock_tests.specs.TimingNumbers.{beat_number};
ghost use Rattle.clock_tests.specs.CursorNumbers.{time_and_end_in, cursor_number};
ghost use Rattle.std.specs.Int.Signed.{lt_z};
ghost use Rattle.rows.specs.Rows.{row};
ghost use Rattle.chart.specs.Timing.{timing};
ghost use Rattle.clock_walk.specs.Passing.{in_force};
ghost use Rattle.clock_walk.specs.Quiet.{only_tempos};
ghost use Rattle.clock_walk.specs.Soon.{quiet_at, soon_of};
ghost use Rattle.clock_walk.specs.Walk.{walk};
ghost use Rattle.clock.specs.Question.{fresh_state, fresh_cursor, made, filled, beginning, answered, refused_with, asking, player_question, question};
ghost use Rattle.clock.specs.inside.QuickWay.{PastTempo, NearRow};
ghost use Rattle.clock.specs.Marked.{mark_of, no_mark, mark_made, same_bits, same_row, same_places, same_warp, same_mark, marked_timing_number};
ghost use Rattle.clock.specs.Marked.{marked_asking, marked_player_question, marked_question};

use chart::State;
use clock_walk::{Mark, Soon, Walked};

// How far the questions so far have come, and the row asked last.
#[repr(C)]
#[derive(Clone, Copy)]
pub struct Cursor {
    pub state: State,
    pub asked: i32,
}

// A question's number, its time, the events passed and one, and the cursor for the next question.
#[repr(C)]
#[derive(Clone, Copy)]
pub struct Answer {
    pub number: u32,
    pub time: f64,
    pub count: usize,
    pub cursor: Cursor,
}

// An end mark, and the number that its timing answers.
#[repr(C)]
#[derive(Clone, Copy)]
pub struct MarkMade {
    pub number: u32,
    pub mark: Mark,
}

// A new cursor, and the number that its offsets answer.
#[repr(C)]
#[derive(Clone, Copy)]
pub struct Made {
    pub number: u32,
    pub cursor: Cursor,
}

// The state that a walk of a timing begins with: nothing passed, on row 0, the time less both offsets.
pub fn fresh_state(offset: f64, global: f64) -> State
    ensures { result ≡ fresh_state offset global }
{
    State {
        tempos: 0,
        stops: 0,
        delays: 0,
        warps: 0,
        row: 0,
        time: -offset - global,
        end: 0.0,
        warping: false,
    }
}

fn fresh_cursor(offset: f64, global: f64) -> Cursor
    ensures { result ≡ fresh_cursor offset global }
{
    let state = fresh_state(offset, global);
    Cursor {
        state: state,
        asked: clock_tests::FRESH_MARK,
    }
}

fn refused(number: u32, cursor: Cursor) -> Answer
    ensures { result ≡ refused_with number cursor }
{
    Answer {
        number: number,
        time: 0.0,
        count: 0,
        cursor: cursor,
    }
}

// The answer that hands a cursor back, moved by a walk that passed so many events and came to a time.
fn answered(cursor: Cursor, passed: usize, time: f64, global: f64) -> Answer
    requires { passed + 1 < 2 ^ 64 }
    ensures { result ≡ answered global cursor.asked (record { state = cursor.state; passed = passed; time = time }) }
{
    Answer {
        number: limits::TAKEN,
        time: time - global,
        count: passed + 1,
        cursor: cursor,
    }
}

// The row of a beat that is taken: of such a size the sum rounds, and its pattern counts on from that of row 0.
fn row_of_taken(beat: f64) -> i32
    requires { beat_number beat ≡ 0 }
    ensures { result ≡ row binary64 beat }
{
    ((f64::to_bits(rows::row_mark(beat)) as i64) - 0x4338_0000_0000_0000) as i32
}

// The tempos of a timing; where it has none, the one of 60 counts.
fn tempos_of(given: usize) -> usize
    ensures { result ≡ pick (eqb given 0) 1 given }
{
    if given == 0 {
        return 1;
    }
    given
}

// One of two columns.
pub fn either<'a>(first: bool, one: &'a [f32], other: &'a [f32]) -> &'a [f32]
    ensures { result.now ≡ pick first one.now other.now }
{
    if first {
        return one;
    }
    other
}

// The walk to a row. Where the timing has no tempo, it has the one of 60 at beat 0.
fn walk_filled(
    begin: State,
    row: i32,
    tempo_beats: &[f32],
    tempo_values: &[f32],
    stop_beats: &[f32],
    stop_values: &[f32],
    delay_beats: &[f32],
    delay_values: &[f32],
    warp_beats: &[f32],
    warp_lengths: &[f32],
) -> Walked
    ensures is { let t = timing tempo_beats.now tempo_values.now stop_beats.now stop_values.now
        delay_beats.now delay_values.now warp_beats.now warp_lengths.now in
        result ≡ walk (filled t) row begin }
    ensures few { result.passed + 1 < 2 ^ 64 }
{
    let none = tempo_beats.len() == 0;
    let beat_of_none = [0.0f32];
    let tempo_of_none = [60.0f32];
    let beats = either(none, &beat_of_none, tempo_beats);
    let tempos = either(none, &tempo_of_none, tempo_values);
    clock_walk::walk_to(
        begin,
        row,
        beats,
        tempos,
        stop_beats,
        stop_values,
        delay_beats,
        delay_values,
        warp_beats,
        warp_lengths,
    )
}

// ---- the end mark

// The walk through all of a timing, from a fresh state. Where it has no tempo, it has the one of 60 at beat 0.
fn mark_of(
    tempo_beats: &[f32],
    tempo_values: &[f32],
    stop_beats: &[f32],
    stop_values: &[f32],
    delay_beats: &[f32],
    delay_values: &[f32],
    warp_beats: &[f32],
    warp_lengths: &[f32],
    offset: f64,
    global: f64,
) -> Mark
    ensures { let t = timing tempo_beats.now tempo_values.now stop_beats.now stop_values.now
        delay_beats.now delay_values.now warp_beats.now warp_lengths.now in
        result ≡ mark_of t offset global }
{
    let none = tempo_beats.len() == 0;
    let beat_of_none = [0.0f32];
    let tempo_of_none = [60.0f32];
    let beats = either(none, &beat_of_none, tempo_beats);
    let tempos = either(none, &tempo_of_none, tempo_values);
    let start = fresh_state(offset, global);
    clock_walk::walk_all(
        start,
        beats,
        tempos,
        stop_beats,
        stop_values,
        delay_beats,
        delay_values,
        warp_beats,
        warp_lengths,
    )
}

// A mark beyond which no row lies.
pub fn no_mark() -> Mark
    ensures { result ≡ no_mark }
{
    let state = fresh_state(0.0, 0.0);
    Mark {
        state: state,
        row: 2147483647,
    }
}

// The end mark of a timing with its offsets, to be made anew with every change to a list or an offset. The timing is tested, 1 to 5, and a refused one has the
// mark that serves no question.
pub fn make_mark(
    tempo_beats: &[f32],
    tempo_values: &[f32],
    stop_beats: &[f32],
    stop_values: &[f32],
    delay_beats: &[f32],
    delay_values: &[f32],
    warp_beats: &[f32],
    warp_lengths: &[f32],
    offset: f64,
    global: f64,
) -> MarkMade
    ensures { let t = timing tempo_beats.now tempo_values.now stop_beats.now stop_values.now
        delay_beats.now delay_values.now warp_beats.now warp_lengths.now in
        result ≡ mark_made t offset global }
{
    let number = clock_tests::check_timing(
        tempo_beats,
        tempo_values,
        stop_beats,
        stop_values,
        delay_beats,
        delay_values,
        warp_beats,
        warp_lengths,
        offset,
        global,
    );
    if number == limits::TAKEN {
        let mark = mark_of(
            tempo_beats,
            tempo_values,
            stop_beats,
            stop_values,
            delay_beats,
            delay_values,
            warp_beats,
            warp_lengths,
            offset,
            global,
        );
        return MarkMade {
            number: limits::TAKEN,
            mark: mark,
        };
    }
    let mark = no_mark();
    MarkMade {
        number: number,
        mark: mark,
    }
}

fn is_same_bits(one: f64, other: f64) -> bool
    ensures { result ≡ same_bits one other }
{
    ieee_patterns::bits_of_f64(one) == ieee_patterns::bits_of_f64(other)
}

fn is_same_row(one: i32, other: i32) -> bool
    ensures { result ≡ same_row one other }
{
    if one < other {
        return false;
    }
    !(other < one)
}

fn is_same_places(one: State, other: State) -> bool
    ensures { result ≡ same_places one other }
{
    if one.tempos == other.tempos {
        if one.stops == other.stops {
            if one.delays == other.delays {
                return one.warps == other.warps;
            }
            return false;
        }
        return false;
    }
    false
}

fn is_same_warp(one: State, other: State) -> bool
    ensures { result ≡ same_warp one other }
{
    let warping = other.warping;
    if one.warping {
        if warping {
            return is_same_bits(one.end, other.end);
        }
        return false;
    }
    if warping {
        return false;
    }
    is_same_bits(one.end, other.end)
}

// Whether two marks are the same in every field, to the bit.
fn is_same_mark(one: Mark, other: Mark) -> bool
    ensures { result ≡ same_mark one other }
{
    let state = one.state;
    let beside = other.state;
    if is_same_row(one.row, other.row) {
        if is_same_places(state, beside) {
            if is_same_row(state.row, beside.row) {
                if is_same_bits(state.time, beside.time) {
                    return is_same_warp(state, beside);
                }
                return false;
            }
            return false;
        }
        return false;
    }
    false
}

// The number of a timing that is given with its mark: 1 to 5 as without one, and then 5 where the mark is another's. The mark is made anew to be tested.
pub fn check_marked_timing(
    mark: Mark,
    tempo_beats: &[f32],
    tempo_values: &[f32],
    stop_beats: &[f32],
    stop_values: &[f32],
    delay_beats: &[f32],
    delay_values: &[f32],
    warp_beats: &[f32],
    warp_lengths: &[f32],
    offset: f64,
    global: f64,
) -> u32
    ensures { let t = timing tempo_beats.now tempo_values.now stop_beats.now stop_values.now
        delay_beats.now delay_values.now warp_beats.now warp_lengths.now in
        result ≡ marked_timing_number mark t offset global }
{
    let made = make_mark(
        tempo_beats,
        tempo_values,
        stop_beats,
        stop_values,
        delay_beats,
        delay_values,
        warp_beats,
        warp_lengths,
        offset,
        global,
    );
    if made.number == limits::TAKEN {
        let own = made.mark;
        if is_same_mark(mark, own) {
            return limits::TAKEN;
        }
        return limits::NOT_RISING;
    }
    made.number
}

// Beats a second beyond a mark, by the tempo in force there.
pub fn rate_beyond(mark: Mark, tempo_beats: &[f32], tempo_values: &[f32]) -> f64
    ensures { let tempos = pick (eqb (length tempo_beats.now) 0) (sixty ∷ []) tempo_values.now in
        result ≡ div binary64 (in_force plus_zero tempos mark.state.tempos) sixty }
{
    let tempo_of_none = [60.0f32];
    let tempos = either(tempo_beats.len() == 0, &tempo_of_none, tempo_values);
    let state = mark.state;
    clock_walk::tempo_in_force(0.0, tempos, state.tempos) / 60.0
}

// The answer to a row beyond a mark, from the mark: of the lists only the tempo in force is looked at.
fn answer_beyond(
    mark: Mark,
    row: i32,
    tempo_beats: &[f32],
    tempo_values: &[f32],
    global: f64,
) -> Answer
    ensures { let tempos = pick (eqb (length tempo_beats.now) 0) (sixty ∷ []) tempo_values.now in
        result ≡ answered global row (record { state = mark.state; passed = 0; time = quiet_at tempos mark.state row }) }
{
    let tempo_of_none = [60.0f32];
    let tempos = either(tempo_beats.len() == 0, &tempo_of_none, tempo_values);
    let state = mark.state;
    let time = clock_walk::quiet_time(state, row, tempos);
    let cursor = Cursor {
        state: state,
        asked: row,
    };
    answered(cursor, 0, time, global)
}

impl Cursor {
    // A cursor that was not asked yet. The offset is the song's and the beat-0 offset together; one beyond the limit is refused with 4.
    pub fn new(offset: f64, global: f64) -> Made
        ensures { result ≡ made offset global }
    {
        let number = clock_tests::offsets_number(offset, global);
        if number == limits::TAKEN {
            let cursor = fresh_cursor(offset, global);
            return Made {
                number: limits::TAKEN,
                cursor: cursor,
            };
        }
        let cursor = fresh_cursor(0.0, 0.0);
        Made {
            number: number,
            cursor: cursor,
        }
    }

    // Where the walk to a row begins: here, or anew where the row fell.
    fn begin(self, row: i32, offset: f64, global: f64) -> State
        ensures { result ≡ beginning self row offset global }
    {
        let last = self.asked;
        if row < last {
            return fresh_state(offset, global);
        }
        self.state
    }

    // The walk to a row from where it begins.
    fn walked(
        self,
        row: i32,
        tempo_beats: &[f32],
        tempo_values: &[f32],
        stop_beats: &[f32],
        stop_values: &[f32],
        delay_beats: &[f32],
        delay_values: &[f32],
        warp_beats: &[f32],
        warp_lengths: &[f32],
        offset: f64,
        global: f64,
    ) -> Walked
        ensures is { let t = timing tempo_beats.now tempo_values.now stop_beats.now stop_values.now
            delay_beats.now delay_values.now warp_beats.now warp_lengths.now in
            result ≡ walk (filled t) row (beginning self row offset global) }
        ensures few { result.passed + 1 < 2 ^ 64 }
    {
        let begin = self.begin(row, offset, global);
        walk_filled(
            begin,
            row,
            tempo_beats,
            tempo_values,
            stop_beats,
            stop_values,
            delay_beats,
            delay_values,
            warp_beats,
            warp_lengths,
        )
    }

    // True only where the cursor has passed a tempo of so many and its rows are from 0 on, and its numbers, but for its places in the other lists, are not refused.
    fn is_past_tempo(self, tempos: usize) -> bool
        ensures { result ≡ true → PastTempo self tempos }
    {
        if self.asked < 0 {
            return false;
        }
        let state = self.state;
        if state.row < 0 {
            return false;
        }
        if 3145728 < state.row {
            return false;
        }
        let place = state.tempos;
        if place == 0 {
            return false;
        }
        if tempos < place {
            return false;
        }
        clock_tests::time_and_end_in(state.time, state.end)
    }

    // True only where the cursor is not refused, the walk to a row goes on from here, past a tempo and over the tempos as they are, and nothing but tempos is due.
    fn is_near(
        self,
        row: i32,
        tempo_beats: &[f32],
        stop_beats: &[f32],
        delay_beats: &[f32],
        warp_beats: &[f32],
    ) -> bool
        ensures { result ≡ true → NearRow self row tempo_beats.now stop_beats.now delay_beats.now warp_beats.now }
    {
        if row < self.asked {
            return false;
        }
        let state = self.state;
        if self.is_past_tempo(tempo_beats.len()) {
            return clock_walk::is_only_tempos(state, row, stop_beats, delay_beats, warp_beats);
        }
        false
    }

    // The walk to a row, whole only where the cursor is not refused and it goes on from here and passes no event or one tempo.
    fn soon(
        self,
        row: i32,
        tempo_beats: &[f32],
        tempo_values: &[f32],
        stop_beats: &[f32],
        delay_beats: &[f32],
        warp_beats: &[f32],
    ) -> Soon
        ensures { let near = NearRow self row tempo_beats.now stop_beats.now delay_beats.now warp_beats.now in
            (result.whole ≡ true → near × (result ≡ soon_of tempo_beats.now tempo_values.now self.state row)) }
    {
        let state = self.state;
        if self.is_near(row, tempo_beats, stop_beats, delay_beats, warp_beats) {
            return clock_walk::walk_soon(state, row, tempo_beats, tempo_values);
        }
        Soon {
            state,
            passed: 0,
            whole: false,
        }
    }

    // A question of a run, whose timing and cursor were tested where it began: only the beat is tested. It walks by itself, not by `walked`: the walk, which is long,
    // then has two callers and is left a call, and what stands around it is short enough to be inlined, so that no cursor is copied from call to call.
    pub fn ask(
        mut self,
        tempo_beats: &[f32],
        tempo_values: &[f32],
        stop_beats: &[f32],
        stop_values: &[f32],
        delay_beats: &[f32],
        delay_values: &[f32],
        warp_beats: &[f32],
        warp_lengths: &[f32],
        offset: f64,
        global: f64,
        beat: f64,
    ) -> Answer
        ensures { let t = timing tempo_beats.now tempo_values.now stop_beats.now stop_values.now
            delay_beats.now delay_values.now warp_beats.now warp_lengths.now in
            result ≡ asking t self offset global beat }
    {
        let number = clock_tests::beat_number(beat);
        if number == limits::TAKEN {
            let row = rows::beat_to_note_row(beat);
            let begin = self.begin(row, offset, global);
            let walked = walk_filled(
                begin,
                row,
                tempo_beats,
                tempo_values,
                stop_beats,
                stop_values,
                delay_beats,
                delay_values,
                warp_beats,
                warp_lengths,
            );
            let state = walked.state;
            self.state = state;
            self.asked = row;
            return answered(self, walked.passed, walked.time, global);
        }
        refused(number, self)
    }

    // 9 for a cursor that no question over these lists left behind.
    pub fn refusal(
        self,
        tempo_beats: &[f32],
        stop_beats: &[f32],
        delay_beats: &[f32],
        warp_beats: &[f32],
    ) -> u32
        ensures { let tempos = length tempo_beats.now in
            result ≡ cursor_number (pick (eqb tempos 0) 1 tempos) (length stop_beats.now) (length delay_beats.now) (length warp_beats.now)
            self.state self.asked }
    {
        let tempos = tempos_of(tempo_beats.len());
        let state = self.state;
        clock_tests::cursor_number(
            tempos,
            stop_beats.len(),
            delay_beats.len(),
            warp_beats.len(),
            state,
            self.asked,
        )
    }

    // The player's question, for a timing that `clock_tests::check_timing` took and that has not changed since: the beat and the cursor are tested, in a time
    // that does not grow with the lists. Over a timing that would be refused it answers what the walk's definition says.
    pub fn time_for_beat_checked(
        mut self,
        tempo_beats: &[f32],
        tempo_values: &[f32],
        stop_beats: &[f32],
        stop_values: &[f32],
        delay_beats: &[f32],
        delay_values: &[f32],
        warp_beats: &[f32],
        warp_lengths: &[f32],
        offset: f64,
        global: f64,
        beat: f64,
    ) -> Answer
        ensures { let t = timing tempo_beats.now tempo_values.now stop_beats.now stop_values.now
            delay_beats.now delay_values.now warp_beats.now warp_lengths.now in
            result ≡ player_question t self offset global beat }
    {
        let asked = clock_tests::beat_number(beat);
        if asked != limits::TAKEN {
            return refused(asked, self);
        }
        let row = row_of_taken(beat);
        let soon = self.soon(
            row,
            tempo_beats,
            tempo_values,
            stop_beats,
            delay_beats,
            warp_beats,
        );
        if soon.whole {
            let state = soon.state;
            let time = clock_walk::quiet_time(state, row, tempo_values);
            self.state = state;
            self.asked = row;
            return answered(self, soon.passed, time, global);
        }
        let lent = self.refusal(tempo_beats, stop_beats, delay_beats, warp_beats);
        if lent != limits::TAKEN {
            return refused(lent, self);
        }
        let walked = self.walked(
            row,
            tempo_beats,
            tempo_values,
            stop_beats,
            stop_values,
            delay_beats,
            delay_values,
            warp_beats,
            warp_lengths,
            offset,
            global,
        );
        let state = walked.state;
        self.state = state;
        self.asked = row;
        answered(self, walked.passed, walked.time, global)
    }

    // At what time is this beat? Everything is tested: the timing, its offsets, the beat, the cursor.
    pub fn time_for_beat(
        mut self,
        tempo_beats: &[f32],
        tempo_values: &[f32],
        stop_beats: &[f32],
        stop_values: &[f32],
        delay_beats: &[f32],
        delay_values: &[f32],
        warp_beats: &[f32],
        warp_lengths: &[f32],
        offset: f64,
        global: f64,
        beat: f64,
    ) -> Answer
        ensures { let t = timing tempo_beats.now tempo_values.now stop_beats.now stop_values.now
            delay_beats.now delay_values.now warp_beats.now warp_lengths.now in
            result ≡ question t self offset global beat }
    {
        let timing = clock_tests::check_timing(
            tempo_beats,
            tempo_values,
            stop_beats,
            stop_values,
            delay_beats,
            delay_values,
            warp_beats,
            warp_lengths,
            offset,
            global,
        );
        let asked = clock_tests::beat_number(beat);
        let lent = self.refusal(tempo_beats, stop_beats, delay_beats, warp_beats);
        let player = limits::lower_of(asked, lent);
        let number = limits::lower_of(timing, player);
        if number != limits::TAKEN {
            return refused(number, self);
        }
        let row = rows::beat_to_note_row(beat);
        let walked = self.walked(
            row,
            tempo_beats,
            tempo_values,
            stop_beats,
            stop_values,
            delay_beats,
            delay_values,
            warp_beats,
            warp_lengths,
            offset,
            global,
        );
        let state = walked.state;
        self.state = state;
        self.asked = row;
        answered(self, walked.passed, walked.time, global)
    }

    // A question of a marked run: `ask` with the end mark of the timing. Beyond the mark it is answered from the mark, in one step; the mark is trusted as the
    // timing is.
    pub fn ask_marked(
        self,
        mark: Mark,
        tempo_beats: &[f32],
        tempo_values: &[f32],
        stop_beats: &[f32],
        stop_values: &[f32],
        delay_beats: &[f32],
        delay_values: &[f32],
        warp_beats: &[f32],
        warp_lengths: &[f32],
        offset: f64,
        global: f64,
        beat: f64,
    ) -> Answer
        ensures { let t = timing tempo_beats.now tempo_values.now stop_beats.now stop_values.now
            delay_beats.now delay_values.now warp_beats.now warp_lengths.now in
            result ≡ marked_asking mark t self offset global beat }
    {
        let number = clock_tests::beat_number(beat);
        if number != limits::TAKEN {
            return refused(number, self);
        }
        let row = row_of_taken(beat);
        if mark.row < row {
            return answer_beyond(mark, row, tempo_beats, tempo_values, global);
        }
        self.ask(
            tempo_beats,
            tempo_values,
            stop_beats,
            stop_values,
            delay_beats,
            delay_values,
            warp_beats,
            warp_lengths,
            offset,
            global,
            beat,
        )
    }

    // The player's question with the end mark of the timing, both tested where they were made: beyond the mark it is answered from the mark, in a time that
    // grows with nothing. The beat and the cursor are tested; over any other mark it answers by that mark.
    pub fn time_for_beat_checked_marked(
        self,
        mark: Mark,
        tempo_beats: &[f32],
        tempo_values: &[f32],
        stop_beats: &[f32],
        stop_values: &[f32],
        delay_beats: &[f32],
        delay_values: &[f32],
        warp_beats: &[f32],
        warp_lengths: &[f32],
        offset: f64,
        global: f64,
        beat: f64,
    ) -> Answer
        ensures { let t = timing tempo_beats.now tempo_values.now stop_beats.now stop_values.now
            delay_beats.now delay_values.now warp_beats.now warp_lengths.now in
            result ≡ marked_player_question mark t self offset global beat }
    {
        let asked = clock_tests::beat_number(beat);
        if asked != limits::TAKEN {
            return refused(asked, self);
        }
        let row = row_of_taken(beat);
        if mark.row < row {
            let lent = self.refusal(tempo_beats, stop_beats, delay_beats, warp_beats);
            if lent != limits::TAKEN {
                return refused(lent, self);
            }
            return answer_beyond(mark, row, tempo_beats, tempo_values, global);
        }
        self.time_for_beat_checked(
            tempo_beats,
            tempo_values,
            stop_beats,
            stop_values,
            delay_beats,
            delay_values,
            warp_beats,
            warp_lengths,
            offset,
            global,
            beat,
        )
    }

    // At what time is this beat, with an end mark beside the cursor? Everything is tested: the timing, its offsets, the mark, the beat, the cursor.
    pub fn time_for_beat_marked(
        self,
        mark: Mark,
        tempo_beats: &[f32],
        tempo_values: &[f32],
        stop_beats: &[f32],
        stop_values: &[f32],
        delay_beats: &[f32],
        delay_values: &[f32],
        warp_beats: &[f32],
        warp_lengths: &[f32],
        offset: f64,
        global: f64,
        beat: f64,
    ) -> Answer
        ensures { let t = timing tempo_beats.now tempo_values.now stop_beats.now stop_values.now
            delay_beats.now delay_values.now warp_beats.now warp_lengths.now in
            result ≡ marked_question mark t self offset global beat }
    {
        let marked = check_marked_timing(
            mark,
            tempo_beats,
            tempo_values,
            stop_beats,
            stop_values,
            delay_beats,
            delay_values,
            warp_beats,
            warp_lengths,
            offset,
            global,
        );
        let asked = clock_tests::beat_number(beat);
        let lent = self.refusal(tempo_beats, stop_beats, delay_beats, warp_beats);
        let player = limits::lower_of(asked, lent);
        let number = limits::lower_of(marked, player);
        if number != limits::TAKEN {
            return refused(number, self);
        }
        self.ask_marked(
            mark,
            tempo_beats,
            tempo_values,
            stop_beats,
            stop_values,
            delay_beats,
            delay_values,
            warp_beats,
            warp_lengths,
            offset,
            global,
            beat,
        )
    }
}

// The time of a beat from a fresh cursor.
pub fn get_time_for_beat(
    tempo_beats: &[f32],
    tempo_values: &[f32],
    stop_beats: &[f32],
    stop_values: &[f32],
    delay_beats: &[f32],
    delay_values: &[f32],
    warp_beats: &[f32],
    warp_lengths: &[f32],
    offset: f64,
    global: f64,
    beat: f64,
) -> Answer
    ensures { let t = timing tempo_beats.now tempo_values.now stop_beats.now stop_values.now
        delay_beats.now delay_values.now warp_beats.now warp_lengths.now in
        result ≡ question t (fresh_cursor offset global) offset global beat }
{
    let cursor = fresh_cursor(offset, global);
    cursor.time_for_beat(
        tempo_beats,
        tempo_values,
        stop_beats,
        stop_values,
        delay_beats,
        delay_values,
        warp_beats,
        warp_lengths,
        offset,
        global,
        beat,
    )
}
