// The lines of a report (N18).
ghost use Rattle.std.specs.Prelude.{◌≤◌};
ghost use Rattle.tally_text.specs.Report.{last_text, row_text};
ghost use Rattle.tally_text.specs.Shown.{rows_text, tally_text};
ghost use Rattle.text.specs.Adds.{Adds, Room};

use tally::Tally;
use text::Page;

pub fn put_tally(page: &mut Page, count: u8, t: &Tally)
    requires { (count ≤ 8) × Room 385 page.old }
    ensures { Adds (tally_text count t.now) 385 page.old page.new }
{
    put_rows(page, count as usize, t);
    put_last(page, t.idle, t.ticks);
}

// The lines of the first n VMs.
fn put_rows(page: &mut Page, n: usize, t: &Tally)
    requires { (n ≤ 8) × Room 352 page.old }
    ensures { Adds (rows_text t.now n) 352 page.old page.new }
{
    for v in 0..n {
        put_row(page, v as u32, t.table[v], t.spare[v], t.missed[v]);
    }
}

fn put_row(page: &mut Page, v: u32, table: u32, spare: u32, missed: u32)
    requires { Room 44 page.old }
    ensures { Adds (row_text v table spare missed) 44 page.old page.new }
{
    lines::put_two(page, v, table, b' ');
    lines::put_two(page, spare, missed, b'\n');
}

// `idle` and `ticks`, each with its number.
fn put_last(page: &mut Page, idle: u32, ticks: u32)
    requires { Room 33 page.old }
    ensures { Adds (last_text idle ticks) 33 page.old page.new }
{
    page.put_word(b"idle ");
    page.put_number(idle, b'\n');
    page.put_word(b"ticks ");
    page.put_number(ticks, b'\n');
}
