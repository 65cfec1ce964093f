// The definitions of the stepper on closed inputs: what they answer are the bits that the original answers (specs/).
#![tactic(auto)]

ghost use Rattle.std.specs.Prelude.{◌≡◌, Some, OnOk, OnErr};
ghost use Rattle.std.specs.Io.KnownBytes.{Appends};
ghost use Rattle.forecast.specs.Failing.{AppendsPrefix};
ghost use Rattle.worked.specs.Pond.{file};
ghost use Rattle.worked.specs.Printed.{four_lines};
ghost use Rattle.worked.specs.Runs.{EveryRun};

use std::io;
use std::io::{Read, Write};

// Each run answers what specs/ has for it: it does nothing, and its contract says so.
pub fn every_run()
    ensures { EveryRun }
{}

// The program pond. Where the input is the file of its own tableau it prints four lines, to the character,
// and where it ends with an error, a prefix of them.
pub fn print_pond<R: Read, W: Write>(input: &mut R, output: &mut W) -> io::Result<()>
    ensures ok { R.remaining input.old ≡ Some file → OnOk result (Appends (W.contents output.old) (W.contents output.new) four_lines) }
    ensures err { R.remaining input.old ≡ Some file → OnErr result (AppendsPrefix (W.contents output.old) (W.contents output.new) four_lines) }
{
    let mut work = [0.0; 2816];
    forecast::pond(input, output, &mut work)
}
