// Checks a vault file: reads the two master keys and the file from standard input, and writes the line that tells the outcome.
#![tactic(auto)]

ghost use Rattle.std.specs.Prelude.{◌≤◌, length};

use check_line::check_line;
use std::io;
use std::io::{Read, Write};

// Reads until buffer is full, the input ends or a read fails, and returns how many bytes it put at the start of buffer.
fn read_full<R: Read>(input: &mut R, buffer: &mut [u8]) -> usize
    ensures { result ≤ length buffer.new }
{
    let mut done = 0;
    // Kept: a step is as long as what one read gives, and a read that fails ends it as the end of the input does.
    while done < buffer.len() {
        let n = input.read(&mut buffer[done..]).unwrap_or(0);
        if n == 0 {
            break;
        }
        done += n;
    }
    done
}

// Reads some of the input and drops it. Was there any?
fn drop_some<R: Read>(input: &mut R) -> bool {
    let mut buffer = [0u8; 4096];
    read_full(input, &mut buffer) > 0
}

// Reads what is left of the input. A proved loop has to end: it takes as many turns as no run uses up.
fn drop_rest<R: Read>(input: &mut R) {
    for _ in 0..u64::MAX {
        if !drop_some(input) {
            break;
        }
    }
}

// An input of more than 65,536 bytes is refused whatever it holds, so one byte more is kept of it at most.
fn main(rt: HostRuntime) -> io::Result<()> {
    let mut stdin = rt.stdin();
    let mut input = [0u8; 65537];
    let n = read_full(&mut stdin, &mut input);
    if n == 65537 {
        drop_rest(&mut stdin);
    }
    let mut room = [0u8; 65537];
    let mut line = [0u8; 25];
    let written = check_line(&input[..n], &mut room, &mut line);
    rt.stdout().write_all(&line[..written])
}
