// A plan file by its name. Where it cannot be read the program says why on standard error, and writes no lines.
ghost use Rattle.std.specs.Prelude.{◌≤◌, length};
ghost use Rattle.std.specs.Io.{ReadsAtMost};
ghost use Rattle.plan_show.specs.Names.{name_room, label_room};

use crate::{INPUT_ROOM, show};
use std::fs::File;
use std::io::{Error, ErrorKind, Read};
use std::{io, str};

// The most bytes of a name.
pub(crate) const NAME_ROOM: usize = 4096;

// The most bytes that stand before the name where the program says that it cannot be read.
const LABEL_ROOM: usize = 23;

pub(crate) fn show_named(rt: &HostRuntime, name: &[u8]) -> io::Result<()>
    requires { length name.now ≤ name_room }
{
    let mut file = match open(rt, name) {
        Ok(file) => file,
        Err(why) => return cannot(rt, b"plan_show: cannot open ", name, why),
    };
    let mut input = [0u8; INPUT_ROOM];
    // A directory opens, and its first read fails.
    let first = match file.read(&mut input) {
        Ok(first) => first,
        Err(why) => return cannot(rt, b"plan_show: cannot read ", name, why),
    };
    let n = read_on(&mut file, &mut input, first)?;
    show(rt, &input[..n])
}

// The library opens files whose names are UTF-8, and no others.
fn open(rt: &HostRuntime, name: &[u8]) -> io::Result<File> {
    let Ok(path) = str::from_utf8(name) else {
        return Err(Error::new(
            ErrorKind::InvalidInput,
            "the name is not UTF-8; give the file on standard input",
        ));
    };
    File::open(rt, path)
}

// Reads on behind the first bytes until the input is full or ends, and answers how many bytes there are then. `read_exact` would refuse a shorter
// input, and `read_to_end` needs a Vec.
pub(crate) fn read_on(from: &mut impl Read, input: &mut [u8], first: usize) -> io::Result<usize>
    requires { first ≤ length input.old }
    ensures { ReadsAtMost result input.new }
{
    let mut end = first;
    while end < input.len() {
        let more = from.read(&mut input[end..])?;
        if more == 0 {
            break;
        }
        end += more;
    }
    Ok(end)
}

// Says what cannot be done, and why.
fn cannot(rt: &HostRuntime, label: &[u8], name: &[u8], why: Error) -> io::Result<()>
    requires { (length label.now ≤ label_room) × (length name.now ≤ name_room) }
{
    let mut line = [0u8; LABEL_ROOM + NAME_ROOM];
    let at = output::put_bytes(&mut line, 0, label);
    let end = output::put_bytes(&mut line, at, name);
    rt.stderr().write_all(&line[..end])?;
    let text = why.to_string(rt.alloc())?;
    let reason = said(text.as_str());
    eprintln!(rt; ": {reason}")
}

// The text of an error, without the number that the library puts behind it.
fn said(text: &str) -> &str {
    match text.split_once(" (os error ") {
        Some((words, _number)) => words,
        None => text,
    }
}
