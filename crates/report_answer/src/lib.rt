// What the report program writes of what assembly left: the answer line, and behind it the lists where they were taken.
#![tactic(auto)]

ghost use Rattle.std.specs.Prelude.{◌≡◌, take};
ghost use Rattle.io.specs.Counts.{IsPrefixLen};
ghost use Rattle.chart.specs.ChartColumns.{ChartRoom, ChartColumns, list_columns, speed_columns};
ghost use Rattle.text_page.specs.Page.{Wrote};
ghost use Rattle.report_text.specs.Output.{answer_line};
ghost use Rattle.report_answer.specs.Report.{done_text};

// The first units of a column, or bytes of a text.
pub fn front_units(column: &[u8], count: usize) -> &[u8]
    ensures { result.now ≡ take count column.now }
{
    if count < column.len() {
        return &column[..count];
    }
    column
}

// Writes the answer from the page's first byte on: assembly's number, and where that is 0 the offset, the first entries of each list, as
// many as are counted, each warp with its mark, the rows that are warped, and how many entries were off the grid. Answers how many bytes it has. A page of 45,400 bytes holds every answer of lists of 256 entries.
pub fn write_answer(
    page: &mut [u8],
    number: u32,
    offset: f32,
    warped: u64,
    moved: u64,
    tempos: usize,
    stops: usize,
    delays: usize,
    warps: usize,
    speeds: usize,
    scrolls: usize,
    fakes: usize,
    tempo_beats: &[f32],
    tempo_values: &[f32],
    stop_beats: &[f32],
    stop_values: &[f32],
    delay_beats: &[f32],
    delay_values: &[f32],
    warp_beats: &[f32],
    warp_lengths: &[f32],
    warp_marks: &[u8],
    speed_beats: &[f32],
    speed_ratios: &[f32],
    speed_delays: &[f32],
    speed_units: &[u8],
    scroll_beats: &[f32],
    scroll_values: &[f32],
    fake_beats: &[f32],
    fake_lengths: &[f32],
) -> usize
    ensures fact { let lists : ChartColumns = record {
      tempos = list_columns tempo_beats.now tempo_values.now;
      stops = list_columns stop_beats.now stop_values.now;
      delays = list_columns delay_beats.now delay_values.now;
      warps = list_columns warp_beats.now warp_lengths.now;
      speeds = speed_columns speed_beats.now speed_ratios.now speed_delays.now speed_units.now;
      scrolls = list_columns scroll_beats.now scroll_values.now;
      fakes = list_columns fake_beats.now fake_lengths.now;
    } in
        let counts : ChartRoom = record {
          tempos = tempos;
          stops = stops;
          delays = delays;
          warps = warps;
          speeds = speeds;
          scrolls = scrolls;
          fakes = fakes;
        } in
        Wrote (done_text number offset warped moved warp_marks.now counts lists) 0 result page.old page.new }
    ensures prefix_len { IsPrefixLen result page.new }
{
    let at = report_text::put_answer(page, 0, number);
    if number != 0 {
        return at;
    }
    let at = report_text::put_offset(page, at, offset);
    let at = report_text::put_pairs(page, at, b"bpm=", tempos, tempo_beats, tempo_values);
    let at = report_text::put_pairs(page, at, b"stop=", stops, stop_beats, stop_values);
    let at = report_text::put_pairs(page, at, b"delay=", delays, delay_beats, delay_values);
    let at = report_text::put_warps(page, at, warps, warp_beats, warp_lengths, warp_marks);
    let at = report_text::put_speeds(
        page,
        at,
        speeds,
        speed_beats,
        speed_ratios,
        speed_delays,
        speed_units,
    );
    let at = report_text::put_pairs(page, at, b"scroll=", scrolls, scroll_beats, scroll_values);
    let at = report_text::put_pairs(page, at, b"fake=", fakes, fake_beats, fake_lengths);
    let at = report_text::put_warped(page, at, warped);
    report_text::put_moved(page, at, moved)
}

// Writes the answer line of a refusal, from the page's first byte on, and answers how many bytes it has.
pub fn write_refusal(page: &mut [u8], number: u32) -> usize
    ensures wrote { Wrote (answer_line number) 0 result page.old page.new }
    ensures prefix_len { IsPrefixLen result page.new }
{
    report_text::put_answer(page, 0, number)
}
