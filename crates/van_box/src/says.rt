// What the program says of itself.
use crate::has_arg;
use std::env::Env;
use std::io;

// Room for an argument that asks for help; a longer one asks for none.
const ARG_ROOM: usize = 8;

// Answers the arguments, of which the program takes none but the one that asks for help.
pub(crate) fn explain(rt: &HostRuntime) -> io::Result<()> {
    let mut arg = [0u8; ARG_ROOM];
    if let Ok(n) = rt.arg(1, &mut arg) {
        if !has_arg(rt, 2) && options::is_help(&arg[..n]) {
            return help(rt);
        }
    }
    usage(&rt.stderr())
}

fn help(out: &impl Print) -> io::Result<()> {
    out.write_all(
        b"usage: van_box <RECORDS >ANSWERS

A record is one byte kind, two bytes length (big-endian) and that many bytes. Its
answer is the kind, one byte number (0, or why not), two bytes length and bytes:
  P  a plan file                     none
  C  bytes received on the stream    a DATAGRAM's value, a request's entries
  A  address entries to assign       the capsule
  R  route ranges to advertise       the capsule
  Q  address entries to request      the capsule
  T  a packet from a tablet          the datagram
  D  a datagram from the link        the packet
Any other kind, and a record that the input's end cuts, is answered ? and 1.
Example: scripts/trace <examples/sample.txt | target/bin/van_box | scripts/show
There is no exit status: a script looks at the numbers of the answers.
README.md says more, under \"The box as a filter\".
",
    )
}

fn usage(err: &impl Print) -> io::Result<()> {
    err.write_all(b"usage: van_box <RECORDS >ANSWERS, or van_box --help\n")
}
