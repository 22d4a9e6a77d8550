// The calls that write text, under C names, for native programs to link.
#![tactic(auto)]

ghost use Rattle.std.specs.Prelude.{map};
ghost use Rattle.ieee.specs.Narrowing.{narrow};
ghost use Rattle.text_tempos.specs.TempoText.{tempo_text};
ghost use Rattle.text_tempos.specs.Answers.{tempo_text_tests, TextLaid};

use columns::Outcome;

// Raw tempos as text.
#[unsafe(no_mangle)]
pub extern "C" fn marrighentu_format_bpm_segments_like_itg(
    beats: &[f64],
    tempos: &[f64],
    page: &mut [u8],
) -> Outcome
    ensures { let tests = tempo_text_tests beats.now tempos.now in
        let text = tempo_text (map narrow beats.now) (map narrow tempos.now) in
        TextLaid tests text result page.old page.new }
{
    text_tempos::format_bpm_segments_like_itg(beats, tempos, page)
}

// The tempos of a timing as text.
#[unsafe(no_mangle)]
pub extern "C" fn marrighentu_format_bpm_segments_f32_like_itg(
    beats: &[f32],
    tempos: &[f32],
    page: &mut [u8],
) -> Outcome
    ensures { let tests = tempo_text_tests beats.now tempos.now in
        TextLaid tests (tempo_text beats.now tempos.now) result page.old page.new }
{
    text_tempos::format_bpm_segments_f32_like_itg(beats, tempos, page)
}
