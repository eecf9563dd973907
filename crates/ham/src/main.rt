// "A program reads the image .. and then a run sheet from standard input .. Bytes after it aren't read. .. It prints the eight figures in
// that order on one line, or `refused N`." The work is the crate sheet's; here are the reads and writes.
#![tactic(auto)]

ghost use Rattle.std.specs.Prelude.{◌≤◌, length};
ghost use Rattle.ham.specs.Read.{Filled, Collected, Replied};

use sheet::INPUT_MOST;
use std::io::Read;

// Why reading came to an end: all that was asked for is there, the input is over, or a read failed.
#[derive(Clone, Copy, PartialEq, Eq)]
enum End {
    Full,
    Over,
    Failed,
}

// How many bytes were read before the end. Not std's `io::Result`: after a failed read, too, the bytes before it count.
#[derive(Clone, Copy)]
struct Got {
    count: usize,
    end: End,
}

// What was read, and where the line begins that is printed for it.
#[derive(Clone, Copy)]
struct Reply {
    got: Got,
    start: usize,
}

// Reads until the part is full, the input is over or a read fails. Not std's `read_exact`, which doesn't say how many bytes it read.
fn fill(stdin: &mut impl Read, part: &mut [u8]) -> Got
    ensures { Filled part.new result }
{
    let mut count = 0;
    while count < part.len() {
        match stdin.read(&mut part[count..]) {
            Ok(0) => {
                return Got {
                    count,
                    end: End::Over,
                };
            }
            Ok(more) => count += more,
            Err(_) => {
                return Got {
                    count,
                    end: End::Failed,
                };
            }
        }
    }
    Got {
        count,
        end: End::Full,
    }
}

// Reads what the program needs and no byte more: each turn asks for what the bytes so far say is missing.
fn collect(stdin: &mut impl Read, input: &mut [u8]) -> Got
    requires { INPUT_MOST ≤ length input.old }
    ensures { Collected input.new result }
{
    let mut count = 0;
    loop {
        let upto = sheet::needed(&input[..count]);
        if upto <= count {
            return Got {
                count,
                end: End::Full,
            };
        }
        let got = fill(stdin, &mut input[count..upto]);
        count += got.count;
        if got.end != End::Full {
            return Got {
                count,
                end: got.end,
            };
        }
    }
}

// An input that can't be read ends there: what is printed is then a refusal.
fn respond(stdin: &mut impl Read, input: &mut [u8], line: &mut [u8; 88]) -> Reply
    requires { INPUT_MOST ≤ length input.old }
    ensures { Replied input.new line.old line.new result }
{
    let got = collect(stdin, input);
    let start = sheet::print(&input[..got.count], line);
    Reply { got, start }
}

// What went wrong outside the program is said on standard error. Where that fails too, nothing can be said.
fn main(rt: HostRuntime) {
    // Arrays of the greatest sizes: the program has no heap.
    let mut input = [0u8; INPUT_MOST];
    let mut line = [0u8; 88];
    let reply = respond(&mut rt.stdin(), &mut input, &mut line);
    let written = rt.write_all(&line[reply.start..]).is_ok();
    if reply.got.end == End::Failed {
        let _ = eprintln!(rt; "ham: standard input can't be read");
    }
    if !written {
        let _ = eprintln!(rt; "ham: standard output can't be written");
    }
}
