// An end and its state: it reads and writes capsules, sends packets and receives datagrams. Each writes a line: the end's name, what it did, and what came out.
use answer::Refusal;
use capsule_write::CAPSULE_ROOM;
use lists::ADDRESS_WORDS;
use print::Refused;
use state::STATE_WORDS;
use std::io;
use tunnel::{RECEIVE_ROOM, SEND_ROOM};

#[derive(Drop)]
pub(crate) struct End<'a> {
    name: &'a str,
    state: [u64; STATE_WORDS],
}

impl<'a> End<'a> {
    pub(crate) fn new(name: &'a str) -> End<'a> {
        End {
            name,
            state: [0; STATE_WORDS],
        }
    }

    // So many capsules that came on the stream: the type of each and where reading goes on, or the refusal.
    pub(crate) fn reads(
        &mut self,
        rt: &impl Print,
        capsules: usize,
        stream: &[u8],
    ) -> io::Result<()> {
        let name = self.name;
        let mut at = 0;
        for _ in 0..capsules {
            let mut requested = [0; ADDRESS_WORDS];
            match exchange::read_capsule(&mut self.state, stream, at, &mut requested) {
                Ok(read) => {
                    println!(rt; "{name}: capsule {} next {}", read.kind.number(), read.next)?;
                    at = read.next;
                }
                Err(why) => println!(rt; "{name}: capsule {}", Refused(why))?,
            }
        }
        Ok(())
    }

    // The value of an ADDRESS_ASSIGN, to be written.
    pub(crate) fn assigns(&mut self, rt: &impl Print, value: &[u8]) -> io::Result<()> {
        self.gives(
            rt,
            "assigned",
            |state, out| exchange::assign(state, value, out),
        )
    }

    // The value of a ROUTE_ADVERTISEMENT, to be written.
    pub(crate) fn advertises(&mut self, rt: &impl Print, value: &[u8]) -> io::Result<()> {
        self.gives(
            rt,
            "advertised",
            |state, out| exchange::advertise(state, value, out),
        )
    }

    fn gives<F: FnOnce(&mut [u64; STATE_WORDS], &mut [u8]) -> Result<usize, Refusal>>(
        &mut self,
        rt: &impl Print,
        what: &str,
        call: F,
    ) -> io::Result<()>
        requires { F.IsAlwaysCallable call }
    {
        let mut out = [0; CAPSULE_ROOM];
        let answer = call(&mut self.state, &mut out);
        self.line(rt, what, answer, &out)
    }

    pub(crate) fn sends(&self, rt: &impl Print, packets: &[(&str, &[u8])]) -> io::Result<()> {
        self.writes(rt, packets, &mut [0; SEND_ROOM], |packet, out| {
            tunnel::send(&self.state, packet, out)
        })
    }

    pub(crate) fn receives(&self, rt: &impl Print, datagrams: &[(&str, &[u8])]) -> io::Result<()> {
        self.writes(rt, datagrams, &mut [0; RECEIVE_ROOM], |datagram, out| {
            tunnel::receive(&self.state, datagram, out)
        })
    }

    // What the call writes of each input.
    fn writes<F: Fn(&[u8], &mut [u8]) -> Result<usize, Refusal>>(
        &self,
        rt: &impl Print,
        inputs: &[(&str, &[u8])],
        out: &mut [u8],
        call: F,
    ) -> io::Result<()>
        requires { F.IsAlwaysCallable call }
    {
        for (what, bytes) in inputs {
            let answer = call(bytes, out);
            self.line(rt, what, answer, out)?;
        }
        Ok(())
    }

    // 0 and the bytes that were written, or the refusal.
    fn line(
        &self,
        rt: &impl Print,
        what: &str,
        answer: Result<usize, Refusal>,
        out: &[u8],
    ) -> io::Result<()> {
        let name = self.name;
        match answer {
            Ok(n) => { println!(rt; "{name}: {what} 0 of {n} bytes {}", print::front(out, n)) }
            Err(why) => println!(rt; "{name}: {what} {}", Refused(why)),
        }
    }
}
