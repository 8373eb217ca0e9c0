// The capsules of a lent buffer, one after the other (document 01: "the reader keeps the lent bytes and its place together").
// A walker is thin: it is taken apart, and `capsule::read` does the work over a slice and a place, and refuses. With no bytes left the answer
// is 1, and a refusal tells the place at which it was read.
#![tactic(auto)]

ghost use Rattle.std.specs.Prelude.{◌≡◌, ◌-◌, length};
ghost use Rattle.walker.specs.Walk.{walker_at, reading_at, behind};

use answer::Refusal;
use capsule::CapsuleRead;

// Why no capsule was read, and the place at which it was tried.
#[derive(Clone, Copy)]
pub struct RefusedAt {
    pub why: Refusal,
    pub at: usize,
}

#[derive(Clone, Copy)]
pub struct Walker<'a> {
    pub bytes: &'a [u8],
    pub at: usize,
}

impl<'a> Walker<'a> {
    // A walker at the front of the buffer.
    pub fn new(bytes: &'a [u8]) -> Walker<'a>
        ensures { result ≡ walker_at bytes.entry 0 }
    {
        Walker { bytes, at: 0 }
    }

    // The same bytes from another place.
    pub fn moved(self, at: usize) -> Walker<'a>
        ensures { result ≡ walker_at self.entry.bytes at }
    {
        Walker {
            bytes: self.bytes,
            at,
        }
    }

    // What stands next.
    pub fn next(self) -> Result<CapsuleRead, RefusedAt>
        ensures { result ≡ reading_at self.entry.bytes.now self.entry.at }
    {
        match capsule::read(self.bytes, self.at) {
            Ok(read) => Ok(read),
            Err(why) => Err(RefusedAt { why, at: self.at }),
        }
    }

    // Behind the capsule that was read, or at the place of the refusal: one that this walker met leaves it where it is.
    pub fn after(self, read: Result<CapsuleRead, RefusedAt>) -> Walker<'a>
        ensures { result ≡ behind self.entry read }
    {
        let at = match read {
            Ok(read) => read.next,
            Err(refused) => refused.at,
        };
        Walker {
            bytes: self.bytes,
            at,
        }
    }

    // How many bytes are left: none past the end.
    pub fn left(self) -> usize
        ensures { result ≡ length self.entry.bytes.now - self.entry.at }
    {
        left_at(self.bytes, self.at)
    }
}

// The capsule at a place of the buffer, by a walker: for callers that hold a plain slice and a place.
pub fn read_at(bytes: &[u8], at: usize) -> Result<CapsuleRead, RefusedAt>
    ensures { result ≡ reading_at bytes.now at }
{
    Walker::new(bytes).moved(at).next()
}

fn left_at(bytes: &[u8], at: usize) -> usize
    ensures { result ≡ length bytes.now - at }
{
    bytes.len().saturating_sub(at)
}
