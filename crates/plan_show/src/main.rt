// Reads a plan file, by its name or on standard input, and writes a line for the plan and one for each template; or the number of its refusal.
// The program only moves bytes: the lines are made by `plan_lines`, over slices.
// A plan file has at most 1,398 bytes, so that what is read decides the answer also where the input goes on (`front_decides` in proofs/).
#![tactic(auto)]

mod lines; // lines.rt: the lines of a plan file
mod named; // named.rt: a plan file by its name
mod says; // says.rt: what the program says of itself
mod text; // text.rt: text and numbers put at a place of an output

ghost use Rattle.std.specs.Prelude.{◌≤◌, length};
ghost use Rattle.plan_show.specs.Names.{name_room};

use lines::{LINES_ROOM, plan_lines};
use named::{NAME_ROOM, read_on, show_named};
use std::env::{Env, FillError};
use std::io;

// The most that is read of the input.
pub(crate) const INPUT_ROOM: usize = 4096;

fn main(rt: HostRuntime) -> io::Result<()> {
    if has_arg(&rt, 2) {
        return says::usage(&rt.stderr());
    }
    let mut arg = [0u8; NAME_ROOM];
    match rt.arg(1, &mut arg) {
        Ok(n) => take(&rt, &arg[..n]),
        Err(FillError::TooLong) => says::too_long(&rt.stderr()),
        Err(FillError::NotPresent) => show_input(&rt),
    }
}

// Whether the program was given so many arguments; the name that it was called by does not count.
fn has_arg(rt: &impl Env, i: usize) -> bool {
    !matches!(rt.arg(i, &mut []), Err(FillError::NotPresent))
}

// What the one argument asks for.
fn take(rt: &HostRuntime, arg: &[u8]) -> io::Result<()>
    requires { length arg.now ≤ name_room }
{
    if options::is_help(arg) {
        return says::help(rt);
    }
    if options::is_option(arg) {
        return says::usage(&rt.stderr());
    }
    show_named(rt, arg)
}

fn show_input(rt: &HostRuntime) -> io::Result<()> {
    let mut input = [0u8; INPUT_ROOM];
    let n = read_on(&mut rt.stdin(), &mut input, 0)?;
    show(rt, &input[..n])
}

// Writes the lines of a plan file.
pub(crate) fn show(rt: &impl Print, file: &[u8]) -> io::Result<()> {
    let mut out = [0u8; LINES_ROOM];
    let size = plan_lines(file, &mut out);
    rt.write_all(&out[..size])
}
