// Text and decimal numbers put at a place of an output, which has room: each function hands back the place behind them.
ghost use Rattle.std.specs.Prelude.{◌+◌, ◌≤◌, length};
ghost use Rattle.output.specs.Places.{Put};
ghost use Rattle.plan_show.specs.Text.{digits_of, decimal};
ghost use Rattle.plan_show.specs.Lines.{labelled, last_labelled};

// A number of 64 bits has at most 20 digits.
const MAX_DIGITS: usize = 20;

// `write!` has no writer that is a slice: the digits would go to an `InlineText` first, and be copied from there.
pub(crate) fn put_decimal(out: &mut [u8], at: usize, n: u64) -> usize
    requires { at + length (decimal n) ≤ length out.old }
    ensures { Put (decimal n) at out.old result out.new }
{
    put_digits(out, at, n, MAX_DIGITS)
}

// The last digits of n, at most so many: those in front of the last one, where there are any, and then that one.
fn put_digits(out: &mut [u8], at: usize, n: u64, most: usize) -> usize
    requires { at + length (digits_of most n) ≤ length out.old }
    ensures { Put (digits_of most n) at out.old result out.new }
{
    if most == 0 {
        return at;
    }
    let next = if n >= 10 {
        put_digits(out, at, n / 10, most - 1)
    } else {
        at
    };
    output::put_byte(out, next, (48 + n % 10) as u8)
}

// A label and a number behind it.
pub(crate) fn put_labelled(out: &mut [u8], at: usize, label: &[u8], n: u64) -> usize
    requires { at + length (labelled label.now n) ≤ length out.old }
    ensures { Put (labelled label.now n) at out.old result out.new }
{
    let next = output::put_bytes(out, at, label);
    put_decimal(out, next, n)
}

// The same at the end of a line.
pub(crate) fn put_last(out: &mut [u8], at: usize, label: &[u8], n: u64) -> usize
    requires { at + length (last_labelled label.now n) ≤ length out.old }
    ensures { Put (last_labelled label.now n) at out.old result out.new }
{
    let next = put_labelled(out, at, label, n);
    output::put_byte(out, next, b'\n')
}
