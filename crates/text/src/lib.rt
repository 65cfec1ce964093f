// The lines that pond prints.
#![tactic(auto)]

ghost use Rattle.std.specs.Prelude.{◌≡◌, ◌+◌, ◌≤◌, Some, length};
ghost use Rattle.io.specs.Counts.{IsPrefixLen};
ghost use Rattle.text.specs.Lines.{decimal, hexadecimal, with_text, step_line, refused_line, text_of};

use std::fmt;

// A line, with its newline.
#[derive(Clone, Copy)]
pub enum Line {
    Step { step: u64, time: f64, state: f64 },
    Refused { number: u64 },
}

impl fmt::Display for Line {
    ghost output = { λ line. Some (text_of line) };

    #[tactic(auto, using(crate::proofs::Texts::refused_text))]
    fn fmt<W: fmt::Write>(&self, f: &mut fmt::Formatter<W>) -> fmt::Result {
        match *self {
            Line::Step { step, time, state } => {
                let time = float::bits_of(time);
                let state = float::bits_of(state);
                writeln!(f, "{step} {time:016x} {state:016x}")
            }
            Line::Refused { number } => writeln!(f, "refused {number}"),
        }
    }
}

impl Line {
    // Puts what the line prints into lent memory, from its start on, and answers how many bytes. It cannot
    // fail, where `write!` may: no line is longer than 55 bytes.
    pub fn put(self, out: &mut [u8; 64]) -> usize
        ensures bound { IsPrefixLen result out.new }
        ensures fits { result ≤ 55 }
        ensures count { result ≡ length (text_of self) }
        ensures text { out.new ≡ with_text out.old 0 (text_of self) }
    {
        match self {
            Line::Step { step, time, state } => {
                let a = append_decimal(out, 0, step);
                let b = append(out, a, b" ");
                let c = append_hexadecimal(out, b, time);
                let d = append(out, c, b" ");
                let e = append_hexadecimal(out, d, state);
                append(out, e, b"\n")
            }
            Line::Refused { number } => {
                let a = append(out, 0, b"refused ");
                let b = append_decimal(out, a, number);
                append(out, b, b"\n")
            }
        }
    }
}

// Puts bytes from a place on, and answers the place after them.
#[tactic(auto, using(crate::proofs::Putting::mid_text))]
fn append(out: &mut [u8], at: usize, bytes: &[u8]) -> usize
    requires { at + length bytes.now ≤ length out.old }
    ensures end { result ≡ at + length bytes.now }
    ensures text { out.new ≡ with_text out.old at bytes.now }
{
    let end = at + bytes.len();
    out[at..end].copy_from_slice(bytes);
    end
}

fn append_decimal(out: &mut [u8], at: usize, n: u64) -> usize
    requires { at + 20 ≤ length out.old }
    ensures bound { result ≤ at + 20 }
    ensures end { result ≡ at + length (decimal n) }
    ensures text { out.new ≡ with_text out.old at (decimal n) }
{
    let mut digits = [0; 20];
    let count = io::decimal(n, &mut digits);
    append(out, at, &digits[..count])
}

fn append_hexadecimal(out: &mut [u8], at: usize, x: f64) -> usize
    requires { at + 16 ≤ length out.old }
    ensures bound { result ≤ at + 16 }
    ensures end { result ≡ at + length (hexadecimal x) }
    ensures text { out.new ≡ with_text out.old at (hexadecimal x) }
{
    let mut digits = [0; 16];
    let count = io::hex(float::bits_of(x), 16, &mut digits);
    append(out, at, &digits[..count])
}

// Step number, time and state, the last two as their bits.
pub fn step_line(step: u64, time: f64, state: f64) -> Line
    ensures { text_of result ≡ step_line step time state }
{
    Line::Step { step, time, state }
}

// The line of a refusal.
pub fn refused_line(number: u64) -> Line
    ensures { text_of result ≡ refused_line number }
{
    Line::Refused { number }
}
