// "It prints the eight figures in that order on one line, or `refused N`." The line is written from its end to its beginning, as digits come.
ghost use Rattle.std.specs.Prelude.{◌≡◌, ◌∷◌, ◌++◌, ◌-◌, ◌≤◌, length, drop};
ghost use Rattle.hume.specs.Sheet.{decimal, figures_line, refused_line};
ghost use Rattle.engine.specs.Reports.{reported};
ghost use Rattle.sheet.specs.Lines.{Text};

use engine::Report;

// The digits of n, before what stands at `end`. A figure is below 2^32, so it has at most 10 digits. By hand: std's `write!` promises its text
// where it answers Ok, and never that it does, and the kit's crate `itoa` would be one more whose promises are trusted.
#[tactic(auto, using(crate::proofs::Lines::number_done))]
fn put_decimal(line: &mut [u8], end: usize, n: u32) -> usize
    requires { (10 ≤ end) × (end ≤ length line.old) }
    ensures { Text (length line.old) line.old line.new result (decimal n (drop end line.old)) (end - 10) end }
{
    let mut rest = n;
    for at in (end - 10..end).rev() {
        line[at] = b'0' + (rest % 10) as u8;
        if rest < 10 {
            return at;
        }
        rest /= 10;
    }
    end - 10
}

// A figure and the byte after it, before what stands at `end`.
fn put_figure(line: &mut [u8], end: usize, n: u32, after: u8) -> usize
    requires { (11 ≤ end) × (end ≤ length line.old) }
    ensures { Text (length line.old) line.old line.new result (decimal n (after ∷ drop end line.old)) (end - 11) end }
{
    line[end - 1] = after;
    put_decimal(line, end - 1, n)
}

// A text, before what stands at `end`.
fn put_text(line: &mut [u8], end: usize, text: &[u8]) -> usize
    requires { (length text.now ≤ end) × (end ≤ length line.old) }
    ensures { Text (length line.old) line.old line.new result (text.now ++ drop end line.old) 0 end }
{
    let start = end - text.len();
    line[start..end].copy_from_slice(text);
    start
}

pub(crate) fn figures_line(line: &mut [u8; 88], report: &Report) -> usize
    ensures { Text 88 line.old line.new result (figures_line (reported report.now)) 0 88 }
{
    let figures = report.figures();
    let mut at = 88;
    let mut after = b'\n';
    for figure in figures.iter().rev() {
        at = put_figure(line, at, *figure, after);
        after = b' ';
    }
    at
}

pub(crate) fn refused_line(line: &mut [u8; 88], n: u32) -> usize
    ensures { Text 88 line.old line.new result (refused_line n) 0 88 }
{
    let number = put_figure(line, 88, n, b'\n');
    put_text(line, number, b"refused ")
}
