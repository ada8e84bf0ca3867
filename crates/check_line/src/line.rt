// The line that tells an outcome.
ghost use Rattle.std.specs.Prelude.{◌≡◌, ◌++◌, ◌+◌, ◌≤◌, length};
ghost use Rattle.octets.specs.Bytes.{placed};
ghost use Rattle.answer.specs.Meaning.{row, meaning};
ghost use Rattle.check_line.specs.Line.{decimal, opened_line, refused_line, refused_at_line, line_of};

use crate::decimal::put_decimal;
use answer::{Refusal, row_number};
use frame::chunks;
use octets::slice::copy_at;

// Writes a text and behind it a number, from a place on, and returns the place behind both.
fn put_field(text: &[u8], n: u64, line: &mut [u8], at: usize) -> usize
    requires { at + length (text.now ++ decimal n) ≤ length line.old }
    ensures { (result ≡ at + length (text.now ++ decimal n)) × (line.new ≡ placed (text.now ++ decimal n) at line.old) }
{
    copy_at(text, line, at);
    put_decimal(n, line, at + text.len())
}

// Writes "opened n in k chunks", and returns the line's length.
#[tactic(auto, using(crate::proofs::Pieces::length_three), unfolding(crate::specs::Line::opened_line))]
fn write_opened(n: usize, k: usize, line: &mut [u8]) -> usize
    requires { length (opened_line n k) ≤ length line.old }
    ensures { (result ≡ length (opened_line n k)) × (line.new ≡ placed (opened_line n k) 0 line.old) }
{
    let a = put_field(b"opened ", n as u64, line, 0);
    let b = put_field(b" in ", k as u64, line, a);
    copy_at(b" chunks\n", line, b);
    b + 8
}

// Writes "refused row", and returns the line's length.
#[tactic(auto, using(crate::proofs::Pieces::length_three), unfolding(crate::specs::Line::refused_line))]
fn write_refused(row: u64, line: &mut [u8]) -> usize
    requires { length (refused_line row) ≤ length line.old }
    ensures { (result ≡ length (refused_line row)) × (line.new ≡ placed (refused_line row) 0 line.old) }
{
    let a = put_field(b"refused ", row, line, 0);
    copy_at(b"\n", line, a);
    a + 1
}

// Writes "refused row at i", and returns the line's length.
#[tactic(auto, using(crate::proofs::Pieces::length_three), unfolding(crate::specs::Line::refused_at_line))]
fn write_refused_at(row: u64, i: u64, line: &mut [u8]) -> usize
    requires { length (refused_at_line row i) ≤ length line.old }
    ensures { (result ≡ length (refused_at_line row i)) × (line.new ≡ placed (refused_at_line row i) 0 line.old) }
{
    let a = put_field(b"refused ", row, line, 0);
    let b = put_field(b" at ", i, line, a);
    copy_at(b"\n", line, b);
    b + 1
}

// Writes the line of a refusal, and returns its length.
fn write_refusal(refusal: Refusal, line: &mut [u8]) -> usize
    requires { length (line_of (row refusal)) ≤ length line.old }
    ensures { (result ≡ length (line_of (row refusal))) × (line.new ≡ placed (line_of (row refusal)) 0 line.old) }
{
    let number = row_number(refusal) as u64;
    match refusal {
        Refusal::Text(i) | Refusal::Chunk(i) | Refusal::Segment(i) => {
            write_refused_at(number, i, line)
        }
        _ => write_refused(number, line),
    }
}

// Writes the line of an answer, and returns its length.
pub fn write_line(answer: Result<usize, Refusal>, line: &mut [u8]) -> usize
    requires { length (line_of (meaning answer)) ≤ length line.old }
    ensures { (result ≡ length (line_of (meaning answer))) × (line.new ≡ placed (line_of (meaning answer)) 0 line.old) }
{
    match answer {
        Ok(n) => write_opened(n, chunks(n), line),
        Err(refusal) => write_refusal(refusal, line),
    }
}
