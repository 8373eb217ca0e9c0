// The class of each protocol number: whether it names an IPv6 extension header, and how long that is.
ghost use Rattle.std.specs.Prelude.{◌≡◌, ◌≤◌, not, eqb};
ghost use Rattle.chain.specs.Chain.{plain, class_of};
ghost use Rattle.chain.specs.Class.{number_of, Classes};

// A number is the unit in which a header says how long it is.
#[derive(Clone, Copy, PartialEq, Eq)]
pub(crate) enum Class {
    Plain = 0, // no extension header
    Fragment = 1, // 8 bytes long
    Fours = 4,
    Eights = 8,
}

// The number of a class.
pub(crate) fn number(class: Class) -> usize
    ensures { (result ≡ number_of class) × (result ≤ 8) }
{
    class as usize
}

// The class of each number. It is built once for a chain, and not for a packet without one (`is_extension`).
pub(crate) fn classes() -> [Class; 256]
    ensures { Classes result }
{
    let mut classes = [Class::Plain; 256];
    classes[0] = Class::Eights; // hop-by-hop options
    classes[43] = Class::Eights; // routing
    classes[44] = Class::Fragment;
    classes[51] = Class::Fours; // authentication; 50, encrypted content, is one into which nobody can look
    classes[60] = Class::Eights; // destination options
    classes[135] = Class::Eights; // mobility
    classes
}

// Whether a number names an extension header.
pub fn is_extension(number: u8) -> bool
    ensures { result ≡ not (eqb (class_of number) plain) }
{
    matches!(number, 0 | 43 | 44 | 51 | 60 | 135)
}
