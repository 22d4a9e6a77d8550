// Marks of warps through assembly: those of made ones behind the given ones, and whether all are the same.
#![tactic(auto)]

ghost use Rattle.std.specs.Prelude.{◌≡◌, ℕ, eqb, get_or};
ghost use Rattle.picks.specs.Pick.{pick};
ghost use Rattle.columns.specs.Each.{laid_each};
ghost use Rattle.assembly_marks.specs.AssembledMarks.{merged_marks, all_the_same};

// ---- merging

// The mark at a place; beyond the given ones that of a made warp.
fn mark_at(marks: &[u8], place: usize) -> u8
    ensures { result ≡ get_or marks.now place 1 }
{
    if place < marks.len() {
        marks[place]
    } else {
        tidy_warps::MADE
    }
}

// The marks of merged warps over the front of the room, as far as it goes: those of the given ones, and behind them 1 for each that is made.
pub fn merge_marks(marks: &[u8], made: usize, out: &mut [u8])
    ensures { out.new ≡ laid_each (λ (mark : ℕ). mark) (merged_marks marks.now made) out.old }
{
    let given = columns::room_of(marks.len(), out.len());
    let end = given + columns::room_of(made, out.len() - given);
    for i in 0..end {
        out[i] = mark_at(marks, i);
    }
}

// ---- marks that tidying leaves as they are

// 1 where a mark is not the one asked for, else 0.
fn one_other(mark: u8, asked: u8) -> u32
    ensures { result ≡ pick (eqb mark asked) 0 1 }
{
    if mark == asked { 0 } else { 1 }
}

// Whether all marks are the same: of such a column every front is what tidying leaves of it.
pub fn all_the_same(marks: &[u8]) -> bool
    ensures { result ≡ all_the_same marks.now }
{
    if marks.len() == 0 {
        return true;
    }
    let first = marks[0];
    let mut worst: u32 = 0;
    for &mark in marks {
        worst = limits::worse_of(worst, one_other(mark, first));
    }
    worst == 0
}
