// The arguments of the programs: which ask for help, and which are options and not the name of a file.
#![tactic(auto)]

ghost use Rattle.std.specs.Prelude.{◌≡◌, eqb, get_or};
ghost use Rattle.options.specs.Help.{AsksHelp, dash};

// Whether an argument is `--help` or `-h`.
pub fn is_help(arg: &[u8]) -> bool
    ensures { AsksHelp arg.now result }
{
    matches!(arg, b"--help" | b"-h")
}

// Whether an argument begins with `-`. A file of such a name is given as `./-NAME`.
pub fn is_option(arg: &[u8]) -> bool
    ensures { result ≡ eqb (get_or arg.now 0 0) dash }
{
    arg.first() == Some(&b'-')
}
