// The line of one column, from C and U as `begin` left them.
ghost use Rattle.std.specs.Prelude.{length, ◌≡◌};
ghost use Rattle.algebra.specs.Sum.{δ};
ghost use Rattle.algebra.specs.Matrix.{vector};
ghost use Rattle.sparse.specs.Matrix.{matrix};
ghost use Rattle.sparse.specs.Views.{stored_at, stored_before};
ghost use Rattle.row_space.specs.Substitution.{through_u};
ghost use Rattle.row_space.specs.Kernel.{setting};
ghost use Rattle.answer_question.specs.Needs.{ClosedReady};
ghost use Rattle.byte_buffer.specs.Fills.{Fills};
ghost use Rattle.print_text.specs.Settings.{setting_line};
ghost use Rattle.ask_settings.specs.Settings.{setting_line_at};
ghost use Rattle.ask_settings.specs.Held.{held_upper};
ghost use Rattle.ask_settings.specs.Needs.{FreeLineReady, ColumnLineReady};

use crate::Begun;
use answer_question::answer::kernel_vector;
use limits::SIZE_CELLS;
use lists::clear_bytes;
use print_text::settings::write_setting;
use residue::Modulus;
use sparse::stored::Compressed;
use sparse::words::Words;

// The setting of the column c, which is free.
fn fill_setting(
    q: Modulus,
    co: &[u32],
    us: &[u32],
    uc: &[u32],
    uv: &[u32],
    r: usize,
    c: usize,
    z: &mut [u32],
)
    requires { ClosedReady q.p r c (stored_at us.now uc.now uv.now) co.now z.old }
    ensures { z.new ≡ through_u q.p (length z.old) r (vector co.now) (matrix (stored_before us.now uc.now uv.now)) (δ c) }
{
    let u = Compressed::stored(us, uc, uv);
    let order = Words::stored(co);
    kernel_vector(q, &u, &order, r, c, z);
}

// The line of the column c, which is free.
fn free_line(
    g: Begun,
    co: &[u32],
    us: &[u32],
    uc: &[u32],
    uv: &[u32],
    c: usize,
    out: &mut [u8],
) -> usize
    requires { FreeLineReady g co.now (stored_at us.now uc.now uv.now) c out.old }
    ensures { Fills out.old out.new result (setting_line (setting g.p g.columns (held_upper g co.now (stored_before us.now uc.now uv.now)) c)) }
{
    let q = Modulus { p: g.p };
    let m = g.columns as usize;
    let rank = g.rank as usize;
    let upper = g.upper as usize;
    let mut z = [0u32; SIZE_CELLS];
    fill_setting(
        q,
        &co[..m],
        &us[..rank + 1],
        &uc[..upper],
        &uv[..upper],
        rank,
        c,
        &mut z[..m],
    );
    write_setting(&z[..m], out)
}

// Writes the line of the column c.
//   takes    what `begin` returned and left, a column, and a buffer of at least 65,536 bytes, which hold any line
//   gives    the length of the line, which stands in the buffer: 0 where the column is a pivot column, which the working row has marked
//   leaves   the buffer zero past the line
pub fn setting_line(
    g: Begun,
    co: &[u32],
    us: &[u32],
    uc: &[u32],
    uv: &[u32],
    marks: &[u64],
    c: usize,
    out: &mut [u8],
) -> usize
    requires { ColumnLineReady g co.now (stored_at us.now uc.now uv.now) marks.now c out.old }
    ensures { Fills out.old out.new result (setting_line_at g.p g.columns (held_upper g co.now (stored_before us.now uc.now uv.now)) c) }
{
    if marks[c] != 0 {
        clear_bytes(out);
        return 0;
    }
    free_line(g, co, us, uc, uv, c, out)
}
