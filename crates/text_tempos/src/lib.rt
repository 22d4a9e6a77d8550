// The tempo list as text, beat=tempo with commas between, over the front of a lent page.
#![tactic(auto)]

ghost use Rattle.std.specs.Prelude.{◌≡◌, ◌≤◌, map, ◌++◌, leb, length};
ghost use Rattle.ieee.specs.Narrowing.{narrow};
ghost use Rattle.limits.specs.Table.{most_entries};
ghost use Rattle.text_page.specs.Page.{Wrote};
ghost use Rattle.text_tempos.specs.TempoText.{roundtrip, entry_text, tempo_text};
ghost use Rattle.text_tempos.specs.Answers.{tempo_text_tests, TextLaid};
ghost use Rattle.text_tempos.specs.inside.TextsLeft.{comma_before};

use columns::Outcome;
use limits::Kind;

// The most bytes of an entry of a list that is taken, with its comma: so many for each entry always hold the text.
pub const MOST_ENTRY_BYTES: usize = 33;

// ---- an entry

// A tempo as it comes back from beats a second; 0 for what is not finite, whose difference from itself is a NaN.
fn roundtrip_bpm_itg(bpm: f32) -> f32
    ensures { result ≡ roundtrip bpm }
{
    if bpm - bpm == 0.0 {
        bpm / 60.0 * 60.0
    } else {
        0.0
    }
}

// A comma before each entry but the first.
fn put_comma(page: &mut [u8], at: usize, i: usize) -> usize
    ensures { Wrote (comma_before i) at result page.old page.new }
{
    if i > 0 {
        return text_page::put_byte(page, at, b',');
    }
    at
}

// Entry number i: its comma, its beat on its row, its tempo.
fn put_entry(page: &mut [u8], at: usize, i: usize, beat: f32, tempo: f32) -> usize
    ensures { Wrote (comma_before i ++ entry_text (beat, tempo)) at result page.old page.new }
{
    let at = put_comma(page, at, i);
    let at = text_decimal::put_dec6(page, at, rows::quantize_beat_f32(beat));
    let at = text_page::put_byte(page, at, b'=');
    text_decimal::put_dec6(page, at, roundtrip_bpm_itg(tempo))
}

// A comma, two numbers of 47 bytes and an equals sign: no entry of f32s has more.
const MOST_BYTES: usize = 96;

// How many bytes an entry has: it is written aside.
fn entry_size(i: usize, beat: f32, tempo: f32) -> usize
    ensures { result ≡ length (comma_before i ++ entry_text (beat, tempo)) }
{
    let mut aside = [0u8; MOST_BYTES];
    put_entry(&mut aside, 0, i, beat, tempo)
}

// ---- a list of f64

fn put_entries(page: &mut [u8], beats: &[f64], tempos: &[f64]) -> usize
    requires { length beats.now ≡ length tempos.now }
    ensures { let text = tempo_text (map narrow beats.now) (map narrow tempos.now) in
        Wrote text 0 result page.old page.new }
{
    let mut place = 0;
    for (i, &beat) in beats.iter().enumerate() {
        place = put_entry(
            page,
            place,
            i,
            ieee::narrow_f64(beat),
            ieee::narrow_f64(tempos[i]),
        );
    }
    place
}

fn text_size(beats: &[f64], tempos: &[f64]) -> usize
    requires { (length beats.now ≤ most_entries) × (length beats.now ≡ length tempos.now) }
    ensures { result ≡ length (tempo_text (map narrow beats.now) (map narrow tempos.now)) }
{
    let mut size: usize = 0;
    for (i, &beat) in beats.iter().enumerate() {
        size += entry_size(i, ieee::narrow_f64(beat), ieee::narrow_f64(tempos[i]));
    }
    size
}

// Whether the text of a list that is taken fits. It is measured only where the room is smaller than every text of so many entries needs.
fn has_room(room: usize, beats: &[f64], tempos: &[f64]) -> bool
    requires { tempo_text_tests beats.now tempos.now ≡ 0 }
    ensures { result ≡ leb (length (tempo_text (map narrow beats.now) (map narrow tempos.now))) room }
{
    if beats.len() * MOST_ENTRY_BYTES <= room {
        return true;
    }
    text_size(beats, tempos) <= room
}

// The text of raw tempos, over the page's front; the count is of bytes. 1 to 4 by the raw limits, a beat that is not finite being 3, and 7 where the
// text is longer than the page.
pub fn format_bpm_segments_like_itg(beats: &[f64], tempos: &[f64], page: &mut [u8]) -> Outcome
    ensures { let tests = tempo_text_tests beats.now tempos.now in
        let text = tempo_text (map narrow beats.now) (map narrow tempos.now) in
        TextLaid tests text result page.old page.new }
{
    let number = limits::list_number(Kind::Beat, Kind::RawTempo, beats, tempos);
    if number != limits::TAKEN {
        return columns::refused(number);
    }
    if !has_room(page.len(), beats, tempos) {
        return columns::refused(limits::NO_ROOM);
    }
    let count = put_entries(page, beats, tempos);
    Outcome {
        number: limits::TAKEN,
        count,
    }
}

// ---- a list of f32

fn put_entries_f32(page: &mut [u8], beats: &[f32], tempos: &[f32]) -> usize
    requires { length beats.now ≡ length tempos.now }
    ensures { Wrote (tempo_text beats.now tempos.now) 0 result page.old page.new }
{
    let mut place = 0;
    for (i, &beat) in beats.iter().enumerate() {
        place = put_entry(page, place, i, beat, tempos[i]);
    }
    place
}

fn text_size_f32(beats: &[f32], tempos: &[f32]) -> usize
    requires { (length beats.now ≤ most_entries) × (length beats.now ≡ length tempos.now) }
    ensures { result ≡ length (tempo_text beats.now tempos.now) }
{
    let mut size: usize = 0;
    for (i, &beat) in beats.iter().enumerate() {
        size += entry_size(i, beat, tempos[i]);
    }
    size
}

fn has_room_f32(room: usize, beats: &[f32], tempos: &[f32]) -> bool
    requires { tempo_text_tests beats.now tempos.now ≡ 0 }
    ensures { result ≡ leb (length (tempo_text beats.now tempos.now)) room }
{
    if beats.len() * MOST_ENTRY_BYTES <= room {
        return true;
    }
    text_size_f32(beats, tempos) <= room
}

// The same of f32 columns, a timing's for one, by the same limits.
pub fn format_bpm_segments_f32_like_itg(beats: &[f32], tempos: &[f32], page: &mut [u8]) -> Outcome
    ensures { let tests = tempo_text_tests beats.now tempos.now in
        TextLaid tests (tempo_text beats.now tempos.now) result page.old page.new }
{
    let number = limits::list_number::<f32>(Kind::Beat, Kind::RawTempo, beats, tempos);
    if number != limits::TAKEN {
        return columns::refused(number);
    }
    if !has_room_f32(page.len(), beats, tempos) {
        return columns::refused(limits::NO_ROOM);
    }
    let count = put_entries_f32(page, beats, tempos);
    Outcome {
        number: limits::TAKEN,
        count,
    }
}
