// What the programs print: bytes in hex, refusals and answers, each with its text (`specs/Text.antt`). No contract can say what reaches standard output:
// what a program writes there is compared with its file `stdout`.
#![tactic(auto)]

ghost use Rattle.std.specs.Prelude.{◌≡◌, Some};
ghost use Rattle.print.specs.Text.{front, hex_text, refused_text, counted_text, written_text};

use answer::Refusal;
use std::{fmt, io};

// Two digits a byte.
#[derive(Clone, Copy)]
pub struct Hex<'a>(pub &'a [u8]);

// A refusal by its number.
#[derive(Clone, Copy)]
pub struct Refused(pub Refusal);

// The number of an answer, and how many bytes were written.
#[derive(Clone, Copy)]
pub struct Counted(pub Result<usize, Refusal>);

// The bytes that were written to the output, or the refusal.
#[derive(Clone, Copy)]
pub struct Written<'a> {
    pub answer: Result<usize, Refusal>,
    pub out: &'a [u8],
}

// The first n bytes of an output; none where it is shorter.
pub fn front(out: &[u8], n: usize) -> Hex
    ensures { result.0.now ≡ front out.now n }
{
    if n <= out.len() {
        return Hex(&out[..n]);
    }
    Hex(b"")
}

// A line for each input: its name, and what the call wrote of it to the output, or the refusal. The first write that fails ends it, and its error is handed on.
pub fn lines<F: Fn(&[u8], &mut [u8]) -> Result<usize, Refusal>>(
    rt: &impl Print,
    inputs: &[(&str, &[u8])],
    out: &mut [u8],
    call: F,
) -> io::Result<()>
    requires { F.IsAlwaysCallable call }
{
    for (name, bytes) in inputs {
        let answer = call(bytes, out);
        println!(rt; "{name}: {}", Written { answer, out })?;
    }
    Ok(())
}

impl fmt::Display for Hex<'_> {
    ghost output = { λ h. Some (hex_text h.0.now) };

    fn fmt<W: fmt::Write>(&self, f: &mut fmt::Formatter<W>) -> fmt::Result {
        for byte in self.0 {
            write!(f, "{byte:02x}")?;
        }
        Ok(())
    }
}

impl fmt::Display for Refused {
    ghost output = { λ r. Some (refused_text r.0) };

    fn fmt<W: fmt::Write>(&self, f: &mut fmt::Formatter<W>) -> fmt::Result {
        write!(f, "refused {}", self.0.number())
    }
}

impl fmt::Display for Counted {
    ghost output = { λ c. Some (counted_text c.0) };

    fn fmt<W: fmt::Write>(&self, f: &mut fmt::Formatter<W>) -> fmt::Result {
        let answer = self.0;
        let number = answer::number_of(&answer);
        write!(f, "number {number} length {}", answer::length_of(answer))
    }
}

impl fmt::Display for Written<'_> {
    ghost output = { λ w. Some (written_text w.answer w.out.now) };

    fn fmt<W: fmt::Write>(&self, f: &mut fmt::Formatter<W>) -> fmt::Result {
        match self.answer {
            Ok(n) => write!(f, "{}", front(self.out, n)),
            Err(why) => write!(f, "{}", Refused(why)),
        }
    }
}
