// What the program says of itself.
use std::io;

pub(crate) fn help(out: &impl Print) -> io::Result<()> {
    out.write_all(
        b"usage: plan_show [FILE]

Reads a plan file, from FILE or from standard input, and writes what is in it:

  plan 1 templates N                    it is good, and has N templates
  ID segments S static B checksum F P   of each its Context ID, the number of its
                                        segments, their bytes in all, and field
                                        and start of the checksum, or none
  refused NUMBER                        it is not good; 20 to 25 say why

Example: plan_show crates/plan_show/stdin
A file that cannot be read is named on standard error, and no line is written.
There is no exit status: a script looks at the first word, plan or refused.
README.md says more, under \"A plan in words\".
",
    )
}

pub(crate) fn usage(err: &impl Print) -> io::Result<()> {
    err.write_all(b"usage: plan_show [FILE], or plan_show --help\n")
}

pub(crate) fn too_long(err: &impl Print) -> io::Result<()> {
    err.write_all(b"plan_show: the argument has more than 4096 bytes\n")
}
