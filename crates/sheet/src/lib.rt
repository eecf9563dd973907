// The program's work on lent slices: from the bytes of standard input to the line that is printed.
#![tactic(auto)]

mod decode;
mod line;
mod refusals;

ghost use Rattle.std.specs.Prelude.{◌≡◌, true, false, MatchResult};
ghost use Rattle.hume.specs.Image.{program};
ghost use Rattle.hume.specs.Sheet.{printed, printed_by, parts_refusal, image_readable, image_read, sheet_read, sheet_ok, sheet_length};
ghost use Rattle.gate.specs.Parts.{Read};
ghost use Rattle.sheet.specs.Lines.{Text};
ghost use Rattle.sheet.specs.Needed.{needed as neededOf, sheet_needed};
ghost use Rattle.sheet.specs.Said.{said};

use decode::Asked;
use engine::Report;
use gate::image::{byte_at, full_at};
use gate::{Refusal, image_verdict};
use line::{figures_line, refused_line};
use refusals::TurnedAway;

// The longest input that is read: the longest image, and the sheet of one with 8 inputs.
pub const INPUT_MOST: usize = 36_159;

const IMAGE_MOST: usize = 33_899;

// The bytes of a word. An image and a sheet begin with one, their length.
pub(crate) const WORD: usize = 4;

// The words of a sheet before its wires, and those of a wire.
pub(crate) const SHEET_HEAD: usize = 45;

pub(crate) const WIRE: usize = 65;

// The length that the image's run sheet has.
#[tactic(auto, unfolding(hume::specs::Sheet::sheet_length, hume::specs::Image::program))]
fn sheet_length(image: &[u8]) -> usize
    ensures { Read (sheet_length (program image.now)) 66500 result }
{
    WORD * (SHEET_HEAD + WIRE * byte_at(image, 5))
}

// "9 | run sheet length or version"
#[tactic(auto, unfolding(hume::specs::Sheet::sheet_ok, hume::specs::Sheet::sheet_word))]
fn sheet_ok(image: &[u8], sheet: &[u8]) -> bool
    ensures { result ≡ sheet_ok (program image.now) sheet.now }
{
    let long = sheet_length(image);
    long <= sheet.len() && (full_at(sheet, 0) == long && full_at(sheet, WORD) == 1)
}

// ---- how much is read

#[tactic(auto, using(crate::proofs::Needing::length_most), unfolding(crate::specs::Needed::sheet_needed, hume::specs::Tests::pick, hume::specs::Sheet::sheet_word))]
fn sheet_needed(image: &[u8], sheet: &[u8]) -> usize
    ensures { Read (sheet_needed image.now sheet.now) 2261 result }
{
    if image_verdict(image).is_err() {
        return 0;
    }
    if sheet.len() < WORD {
        return WORD;
    }
    let long = sheet_length(image);
    if full_at(sheet, 0) != long {
        return WORD;
    }
    long
}

// How many bytes of the input have to be read, as far as those read so far tell. Its tests are those of `parts`, but what is missing differs at each,
// and `parts` says only that something is.
#[tactic(auto, unfolding(crate::specs::Needed::needed, hume::specs::Tests::pick, hume::specs::Sheet::image_read, hume::specs::Sheet::sheet_read))]
pub fn needed(input: &[u8]) -> usize
    ensures { Read (neededOf input.now) 36160 result }
{
    if input.len() < WORD {
        return WORD;
    }
    let n = full_at(input, 0);
    if IMAGE_MOST < n {
        return WORD;
    }
    let Some((image, sheet)) = input.split_at_checked(n) else {
        return n;
    };
    n + sheet_needed(image, sheet)
}

// ---- what is printed

// The image, and what comes after it. "1 if its length is over 33,899 or the input ends first"
#[tactic(auto, unfolding(hume::specs::Sheet::image_readable, hume::specs::Sheet::image_read, hume::specs::Sheet::sheet_read))]
fn parts(input: &[u8]) -> Result<(&[u8], &[u8]), Refusal>
    ensures { MatchResult result
        (λ p. (image_readable input.now ≡ true) × (p.0.now ≡ image_read input.now) × (p.1.now ≡ sheet_read input.now))
        (λ r. (image_readable input.now ≡ false) × (r ≡ Refusal.Length)) }
{
    if input.len() < WORD {
        return Err(Refusal::Length);
    }
    let n = full_at(input, 0);
    if IMAGE_MOST < n {
        return Err(Refusal::Length);
    }
    input.split_at_checked(n).ok_or(Refusal::Length)
}

// The run that an image and a sheet ask for, or what turns them away.
#[tactic(auto, unfolding(hume::specs::Sheet::parts_refusal, hume::specs::Sheet::sheet_refusal, hume::specs::Sheet::printed_by, hume::specs::Call::first_of, hume::specs::Refusals::unless))]
fn run_parts(image: &[u8], sheet: &[u8]) -> Result<Report, TurnedAway>
    ensures { said result ≡ printed_by (parts_refusal image.now sheet.now) image.now sheet.now }
{
    image_verdict(image)?;
    if !sheet_ok(image, sheet) {
        return Err(TurnedAway::Sheet);
    }
    let report = Asked { image, sheet }.run();
    report.verdict?;
    Ok(report)
}

// The same of the whole input.
#[tactic(auto, unfolding(hume::specs::Sheet::printed, hume::specs::Sheet::program_refusal, hume::specs::Sheet::printed_by, hume::specs::Refusals::unless))]
fn run_input(input: &[u8]) -> Result<Report, TurnedAway>
    ensures { said result ≡ printed input.now }
{
    let (image, sheet) = parts(input)?;
    run_parts(image, sheet)
}

// What the program prints for its input: it stands in the line from the returned place to the end (digits come from the last on, and there is no
// heap for a text of its own).
pub fn print(input: &[u8], line: &mut [u8; 88]) -> usize
    ensures { Text 88 line.old line.new result (printed input.now) 0 88 }
{
    match run_input(input) {
        Ok(report) => figures_line(line, &report),
        Err(turned_away) => refused_line(line, u32::from(turned_away)),
    }
}
