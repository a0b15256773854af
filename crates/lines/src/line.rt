// The lines of a run's text: that of an event (N3, N4), of a refused image (N5), of a cut log (N7).
ghost use Rattle.lines.specs.Text.{cut_text, line_text, refused_text, runs_text, where_text};
ghost use Rattle.lines.specs.Words.{choice, two};
ghost use Rattle.text.specs.Adds.{Adds, Room};

use change::Answer;
use text::Page;

// A VM or a pseudo-interrupt, or `-` for none (N4), and the byte behind it.
pub fn put_choice(page: &mut Page, v: u8, after: u8)
    requires { Room 11 page.old }
    ensures { Adds (choice v after) 11 page.old page.new }
{
    if v == Answer::NOBODY {
        page.put_mark(b'-', after);
        return;
    }
    page.put_number(v as u32, after);
}

// The address of the VM that runs, or `-` where none does.
fn put_where(page: &mut Page, running: u8, address: u32)
    requires { Room 9 page.old }
    ensures { Adds (where_text running address) 9 page.old page.new }
{
    if running == Answer::NOBODY {
        page.put_mark(b'-', b' ');
        return;
    }
    page.put_address(address, b' ');
}

fn put_runs(page: &mut Page, running: u8, address: u32, delivered: u8)
    requires { Room 31 page.old }
    ensures { Adds (runs_text running address delivered) 31 page.old page.new }
{
    put_choice(page, running, b' ');
    put_where(page, running, address);
    put_choice(page, delivered, b' ');
}

// Two numbers, and the byte behind the second.
pub fn put_two(page: &mut Page, m: u32, n: u32, after: u8)
    requires { Room 22 page.old }
    ensures { Adds (two m n after) 22 page.old page.new }
{
    page.put_number(m, b' ');
    page.put_number(n, after);
}

// N3, N4, N12.
pub fn put_line(page: &mut Page, n: u32, a: &Answer)
    requires { Room 86 page.old }
    ensures { Adds (line_text n a.now) 86 page.old page.new }
{
    put_two(page, n, a.refusal as u32, b' ');
    put_runs(page, a.running, a.address, a.delivered);
    put_two(page, a.notice.kind as u32, a.result as u32, b' ');
    page.put_number(a.removed as u32, b'\n');
}

// N5.
pub fn put_refused(page: &mut Page, fault: u8, offset: u32)
    requires { Room 29 page.old }
    ensures { Adds (refused_text fault offset) 29 page.old page.new }
{
    page.put_word(b"config ");
    put_two(page, fault as u32, offset, b'\n');
}

// N7.
pub fn put_cut(page: &mut Page, n: u32)
    requires { Room 15 page.old }
    ensures { Adds (cut_text n) 15 page.old page.new }
{
    page.put_word(b"cut ");
    page.put_number(n, b'\n');
}
