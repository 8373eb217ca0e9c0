// Packets from a tablet and datagrams from the link, with grants and templates that came as capsules and files.
use capsule_write::CAPSULE_ROOM;
use lists::{ADDRESS_WORDS, MAX_ADDRESSES};
use print::Counted;
use state::{GIVEN_AT, STATE_WORDS};
use std::io;
use template::MAX_PACKET;
use tunnel::{RECEIVE_ROOM, SEND_ROOM};

// UDP from 192.0.2.3 to 198.51.100.2.
const EXAMPLE: &[u8] =
    b"\x45\x00\x00\x1c\x00\x00\x00\x00\x40\x11\x8e\x98\xc0\x00\x02\x03\xc6\x33\x64\x02\x03\xe8\x07\xd0\x00\x08\x07\xed";

// The same as a datagram by the drivers' plan, its hop count one less.
const SHORT_FORM: &[u8] = b"\x02\x45\x00\x00\x1c\x00\x00\x00\x00\x3f\x11\x8f\x98\x00\x08\xec\x52";

pub(crate) fn packets(rt: &impl Print) -> io::Result<()> {
    let mut near = [0; STATE_WORDS];
    receive_grants(&mut near);
    load_drivers_plan(&mut near);
    sending(rt, &near)?;
    let mut far = [0; STATE_WORDS];
    give_grants(&mut far);
    load_drivers_plan(&mut far);
    receiving(rt, &near, &far)
}

// 192.0.2.3 may send UDP to 198.51.100.2.
fn receive_grants(state: &mut [u64; STATE_WORDS]) {
    let capsules: [&[u8]; 2] = [
        b"\x01\x07\x00\x04\xc0\x00\x02\x03\x20",
        b"\x03\x0a\x04\xc6\x33\x64\x02\xc6\x33\x64\x02\x11",
    ];
    for bytes in capsules {
        let _ = exchange::read_capsule(state, bytes, 0, &mut [0; ADDRESS_WORDS]);
    }
}

// The other end gave that.
fn give_grants(state: &mut [u64; STATE_WORDS]) {
    let mut out = [0; CAPSULE_ROOM];
    let _ = exchange::assign(state, b"\x00\x04\xc0\x00\x02\x03\x20", &mut out);
    let _ = exchange::advertise(state, b"\x04\xc6\x33\x64\x02\xc6\x33\x64\x02\x11", &mut out);
}

fn load_drivers_plan(state: &mut [u64; STATE_WORDS]) {
    let _ = state::load_plan(
        state,
        b"\x56\x41\x4e\x00\x01\x01\x02\x01\x0c\x0c\xc0\x00\x02\x03\xc6\x33\x64\x02\x03\xe8\x07\xd0\x01\x1a\x14",
    );
}

fn sending(rt: &impl Print, state: &[u64; STATE_WORDS]) -> io::Result<()> {
    println!(rt; "sending")?;
    sent_checksums(rt, state)?;
    sent_ports(rt)?;
    sent_hops(rt, state)?;
    sent_judged(rt, state)?;
    sent_limits(rt, state)
}

fn sent_checksums(rt: &impl Print, state: &[u64; STATE_WORDS]) -> io::Result<()> {
    sent(
        rt,
        state,
        &[
            ("example", EXAMPLE),
            (
                "damaged checksum",
                b"\x45\x00\x00\x1c\x00\x00\x00\x00\x40\x11\x8e\x98\xc0\x00\x02\x03\xc6\x33\x64\x02\x03\xe8\x07\xd0\x00\x08\x07\xee",
            ),
            (
                "no checksum",
                b"\x45\x00\x00\x1c\x00\x00\x00\x00\x40\x11\x8e\x98\xc0\x00\x02\x03\xc6\x33\x64\x02\x03\xe8\x07\xd0\x00\x08\x00\x00",
            ),
        ],
    )
}

// A template that holds no ports.
fn sent_ports(rt: &impl Print) -> io::Result<()> {
    let mut ports = [0; STATE_WORDS];
    receive_grants(&mut ports);
    let _ = state::load_plan(
        &mut ports,
        b"\x56\x41\x4e\x00\x01\x01\x03\x01\x0c\x08\xc0\x00\x02\x03\xc6\x33\x64\x02\x01\x1a\x14",
    );
    sent(
        rt,
        &ports,
        &[(
            "port 4029",
            b"\x45\x00\x00\x1c\x00\x00\x00\x00\x40\x11\x8e\x98\xc0\x00\x02\x03\xc6\x33\x64\x02\x03\xe8\x0f\xbd\x00\x08\xff\xff",
        )],
    )
}

fn sent_hops(rt: &impl Print, state: &[u64; STATE_WORDS]) -> io::Result<()> {
    sent(
        rt,
        state,
        &[
            (
                "hop count 1",
                b"\x45\x00\x00\x1c\x00\x00\x00\x00\x01\x11\xcd\x98\xc0\x00\x02\x03\xc6\x33\x64\x02\x03\xe8\x07\xd0\x00\x08\x07\xed",
            ),
            (
                "hop count 2",
                b"\x45\x00\x00\x1c\x00\x00\x00\x00\x02\x11\xcc\x98\xc0\x00\x02\x03\xc6\x33\x64\x02\x03\xe8\x07\xd0\x00\x08\x07\xed",
            ),
            (
                "hop count 0",
                b"\x45\x00\x00\x1c\x00\x00\x00\x00\x00\x11\xce\x98\xc0\x00\x02\x03\xc6\x33\x64\x02\x03\xe8\x07\xd0\x00\x08\x07\xed",
            ),
        ],
    )
}

// Packets of bad form, and of other flows.
fn sent_judged(rt: &impl Print, state: &[u64; STATE_WORDS]) -> io::Result<()> {
    sent(
        rt,
        state,
        &[
            ("empty", b""),
            (
                "header checksum wrong",
                b"\x45\x00\x00\x1c\x00\x00\x00\x00\x40\x11\x00\x00\xc0\x00\x02\x03\xc6\x33\x64\x02\x03\xe8\x07\xd0\x00\x08\x07\xed",
            ),
            (
                "other destination",
                b"\x45\x00\x00\x1c\x00\x00\x00\x00\x40\x11\x8e\x97\xc0\x00\x02\x03\xc6\x33\x64\x03\x03\xe8\x07\xd0\x00\x08\x07\xed",
            ),
            (
                "TCP",
                b"\x45\x00\x00\x1c\x00\x00\x00\x00\x40\x06\x8e\xa3\xc0\x00\x02\x03\xc6\x33\x64\x02\x03\xe8\x07\xd0\x00\x08\x07\xed",
            ),
            (
                "ICMP",
                b"\x45\x00\x00\x1c\x00\x00\x00\x00\x40\x01\x8e\xa8\xc0\x00\x02\x03\xc6\x33\x64\x02\x03\xe8\x07\xd0\x00\x08\x07\xed",
            ),
        ],
    )
}

// The packet's limit, a broken state and an output that is one byte too small.
fn sent_limits(rt: &impl Print, state: &[u64; STATE_WORDS]) -> io::Result<()> {
    let answer = tunnel::send(state, &longest_packet(), &mut [0; SEND_ROOM]);
    println!(rt; "1500 bytes: {}", Counted(answer))?;
    sent(rt, state, &[("1501 bytes", &[0; MAX_PACKET + 1])])?;
    sent(rt, &broken(state), &[("broken list", EXAMPLE)])?;
    print::lines(
        rt,
        &[("small output", EXAMPLE)],
        &mut [0; SEND_ROOM - 1],
        |packet, out| tunnel::send(state, packet, out),
    )
}

// At the other end; one datagram also at this one.
fn receiving(
    rt: &impl Print,
    near: &[u64; STATE_WORDS],
    far: &[u64; STATE_WORDS],
) -> io::Result<()> {
    println!(rt; "receiving")?;
    received_forms(rt, far)?;
    received_cut(rt, far)?;
    received_judged(rt, near, far)
}

fn received_forms(rt: &impl Print, far: &[u64; STATE_WORDS]) -> io::Result<()> {
    received(
        rt,
        far,
        &[
            ("short form", SHORT_FORM),
            (
                "full form",
                b"\x00\x45\x00\x00\x1c\x00\x00\x00\x00\x3f\x11\x8f\x98\xc0\x00\x02\x03\xc6\x33\x64\x02\x03\xe8\x07\xd0\x00\x08\x07\xed",
            ),
            (
                "longer Context ID",
                b"\x40\x02\x45\x00\x00\x1c\x00\x00\x00\x00\x3f\x11\x8f\x98\x00\x08\xec\x52",
            ),
        ],
    )
}

// Context IDs and bodies that are cut or unknown.
fn received_cut(rt: &impl Print, far: &[u64; STATE_WORDS]) -> io::Result<()> {
    received(
        rt,
        far,
        &[
            ("no bytes", b""),
            ("cut Context ID", b"\x40"),
            (
                "unknown Context ID",
                b"\x05\x45\x00\x00\x1c\x00\x00\x00\x00\x3f\x11\x8f\x98\x00\x08\xec\x52",
            ),
            ("too few bytes", b"\x02\x45\x00\x00\x1c\x00\x00\x00\x00\x3f"),
            (
                "field not reached",
                b"\x02\x45\x00\x00\x1c\x00\x00\x00\x00\x3f\x11\x8f\x98\x00",
            ),
        ],
    )
}

// Packets that are not taken in, other lists and a small output.
fn received_judged(
    rt: &impl Print,
    near: &[u64; STATE_WORDS],
    far: &[u64; STATE_WORDS],
) -> io::Result<()> {
    received(
        rt,
        far,
        &[
            (
                "bad form",
                b"\x00\x45\x00\x00\x1c\x00\x00\x00\x00\x40\x11\x8e\x98\xc0\x00\x02\x03\xc6\x33\x64\x02\x03\xe8\x07\xd0\x00\x08\x07",
            ),
            (
                "not granted",
                b"\x00\x45\x00\x00\x1c\x00\x00\x00\x00\x40\x11\x8e\x97\xc0\x00\x02\x03\xc6\x33\x64\x03\x03\xe8\x07\xd0\x00\x08\x07\xed",
            ),
            ("1501 bytes in full", &[0; MAX_PACKET + 2]),
        ],
    )?;
    received(rt, &broken(far), &[("broken list", SHORT_FORM)])?;
    received(rt, near, &[("this end's own lists", SHORT_FORM)])?;
    print::lines(
        rt,
        &[("small output", SHORT_FORM)],
        &mut [0; RECEIVE_ROOM - 1],
        |datagram, out| tunnel::receive(far, datagram, out),
    )
}

// A packet of 1,500 bytes.
fn longest_packet() -> [u8; MAX_PACKET] {
    let mut packet = [0; MAX_PACKET];
    packet[..20].copy_from_slice(
        b"\x45\x00\x05\xdc\x00\x00\x00\x00\x40\x11\x88\xd8\xc0\x00\x02\x03\xc6\x33\x64\x02",
    );
    packet
}

// The same with a list whose count is over the limit.
fn broken(state: &[u64; STATE_WORDS]) -> [u64; STATE_WORDS] {
    let mut words = *state;
    words[GIVEN_AT] = MAX_ADDRESSES as u64 + 1;
    words
}

fn sent(rt: &impl Print, state: &[u64; STATE_WORDS], packets: &[(&str, &[u8])]) -> io::Result<()> {
    print::lines(rt, packets, &mut [0; SEND_ROOM], |packet, out| {
        tunnel::send(state, packet, out)
    })
}

fn received(
    rt: &impl Print,
    state: &[u64; STATE_WORDS],
    datagrams: &[(&str, &[u8])],
) -> io::Result<()> {
    print::lines(rt, datagrams, &mut [0; RECEIVE_ROOM], |datagram, out| {
        tunnel::receive(state, datagram, out)
    })
}
