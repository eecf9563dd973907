// Reads calls, a line each, and writes the number that turns each away, 0 for none. vectors/gate.rs makes the lines and
// says what they mean, and makes the numbers to compare with.
#![tactic(auto)]

use gate::Refusal;
use std::io;
use std::io::Read;

// What stack and heap are lent from: the checks read only how long they are.
static AREA: [u32; 16400] = [0; 16400];

// A call's image, and its other numbers and lent words.
#[derive(Clone, Copy)]
struct Call {
    image: [u8; 40000],
    words: [u32; 2048],
}

// The call that the line makes of the base, the first line's; what has been read of a pair, its place and the digits so
// far of a number.
#[derive(Drop)]
struct Reader {
    call: Call,
    base: Option<Call>,
    place: Option<u64>,
    number: Option<u64>,
}

// The number so far with one digit more. No number here has more than ten digits.
fn with_digit(value: u64, b: u8) -> u64 {
    if value < 1000000000 {
        value * 10 + u64::from(b % 16)
    } else {
        value
    }
}

fn put<T: Copy + Drop>(xs: &mut [T], at: usize, x: T) {
    if let Some(place) = xs.get_mut(at) {
        *place = x;
    }
}

// n of them from a place on, or none.
fn part<T>(xs: &[T], from: u32, n: u32) -> &[T] {
    let start = from as usize;
    xs.get(start..start + n as usize).unwrap_or(&[])
}

fn digit_of(v: Result<(), Refusal>) -> u8 {
    match v {
        Ok(()) => b'0',
        Err(r) => b'0' + u32::from(r) as u8,
    }
}

impl Call {
    // "before the first line each byte is 4 where its place is a multiple of 8 and else 0"
    fn new() -> Call {
        let mut image = [0; 40000];
        for b in image.iter_mut().step_by(8) {
            *b = 4;
        }
        Call {
            image,
            words: [0; 2048],
        }
    }

    // "Places below 40000 are bytes of the image", the others words. What is over is taken off by a remainder: a cast must lose nothing.
    fn put(&mut self, place: u64, value: u64) {
        if place < 40000 {
            put(&mut self.image, place as usize, (value % 256) as u8);
        } else {
            put(
                &mut self.words,
                place as usize - 40000,
                (value % 4294967296) as u32,
            );
        }
    }

    fn judge(&self) -> u8 {
        let words = &self.words;
        digit_of(gate::verdict(
            part(&self.image, 0, words[0]),
            part(words, 16, words[1]),
            words[6],
            words[7],
            words[8],
            part(&AREA, 0, words[2]),
            part(&AREA, 0, words[3]),
            part(words, 128, words[4]),
            part(words, 1400, words[5]),
        ))
    }
}

impl Reader {
    fn new() -> Reader {
        Reader {
            call: Call::new(),
            base: None,
            place: None,
            number: None,
        }
    }

    // A number ends: it is a place, or the value that goes there.
    fn end_number(&mut self) {
        if let Some(number) = self.number.take() {
            match self.place.take() {
                Some(place) => self.call.put(place, number),
                None => self.place = Some(number),
            }
        }
    }

    // A line ends: its call is judged; the first is kept as the base, and any other makes way for the base.
    fn end_line(&mut self, out: &impl Print) -> io::Result<()> {
        out.write_all(&[self.call.judge(), b'\n'])?;
        self.place = None;
        match self.base {
            Some(base) => self.call = base,
            None => self.base = Some(self.call),
        }
        Ok(())
    }

    fn feed(&mut self, out: &impl Print, b: u8) -> io::Result<()> {
        if b'0' <= b {
            self.number = Some(with_digit(self.number.unwrap_or(0), b));
            return Ok(());
        }
        self.end_number();
        if b == b'\n' {
            self.end_line(out)?;
        }
        Ok(())
    }
}

fn run(input: &mut impl Read, out: &impl Print) -> io::Result<()> {
    let mut reader = Reader::new();
    let mut text = [0; 4096];
    for _ in 0..100 {
        let n = input.read(&mut text)?;
        for &b in &text[..n] {
            reader.feed(out, b)?;
        }
    }
    Ok(())
}

fn main(rt: HostRuntime) -> io::Result<()> {
    run(&mut rt.stdin(), &rt)
}
