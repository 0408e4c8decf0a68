// The C lines that changed.
ghost use Rattle.std.specs.Prelude.{◌≡◌, not};
ghost use Rattle.text.specs.Writers.{Wrote};
ghost use Rattle.bench_summary.specs.Summary.{summary_of};
ghost use Rattle.trace.specs.Lines.{Shows, text, when};
ghost use Rattle.trace.specs.Shown.{same_row, unchanged, changed_rows, changed};

use bench_report::{Row, put_controller, row_at};
use bench_summary::summary_of;
use ground::LIMIT;
use protocol::Bench;
use text::Writer;

fn same_row(r: Row, s: Row) -> bool
    ensures { result ≡ same_row r s }
{
    if r.stage != s.stage {
        return false;
    }
    let o = r.outcome;
    let p = s.outcome;
    if u8::from(o) != u8::from(p) {
        return false;
    }
    r.position == s.position
}

// The C line of controller k, unless it had the same before.
fn put_row(w: &mut Writer, n: u8, k: u32, old: Row, new: Row)
    ensures { Wrote w.old w.new (text (when (not (unchanged n k old new)) (Shows k new))) }
{
    if k <= n as u32 {
        if same_row(old, new) {
            return w.bytes(b"");
        }
        return put_controller(w, k, new);
    }
    put_controller(w, k, new)
}

fn put_rows(w: &mut Writer, old_n: u8, old: [Row; LIMIT], n: u8, new: [Row; LIMIT])
    ensures { Wrote w.old w.new (text (changed_rows old_n old n new)) }
{
    for i in 0..n as usize {
        let was = row_at(old, i);
        let is = row_at(new, i);
        put_row(w, old_n, i as u32 + 1, was, is);
    }
}

pub(crate) fn put_changes(w: &mut Writer, old: Bench, new: Bench)
    ensures { Wrote w.old w.new (text (changed (summary_of old) (summary_of new))) }
{
    let before = old.stations;
    let after = new.stations;
    let was = summary_of(old.shared, before);
    let is = summary_of(new.shared, after);
    let rows = was.rows;
    let new_rows = is.rows;
    put_rows(w, was.n, rows, is.n, new_rows)
}
