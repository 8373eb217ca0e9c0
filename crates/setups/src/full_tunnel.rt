// Section 8.1, figure 15: the client is given 192.0.2.11 and a route to every IPv4 address.
use crate::end::End;
use std::io;

// UDP from 192.0.2.11 to 198.51.100.2.
const UDP: &[u8] =
    b"\x45\x00\x00\x1c\x00\x00\x00\x00\x40\x11\x8e\x90\xc0\x00\x02\x0b\xc6\x33\x64\x02\x03\xe8\x07\xd0\x00\x08\x07\xe5";

pub(crate) fn run(rt: &impl Print) -> io::Result<()> {
    let mut client = End::new("full tunnel");
    client.sends(rt, &[("sent without grants", UDP)])?;
    client.reads(
        rt,
        2,
        b"\x01\x07\x01\x04\xc0\x00\x02\x0b\x20\x03\x0a\x04\x00\x00\x00\x00\xff\xff\xff\xff\x00",
    )?;
    sending(rt, &client)?;
    receiving(rt, &client)?;
    proxy(rt)
}

// UDP from the client's address and from another, to the same host; and an IPv6 packet.
fn sending(rt: &impl Print, client: &End) -> io::Result<()> {
    client.sends(
        rt,
        &[
            ("sent", UDP),
            (
                "sent from 192.0.2.12",
                b"\x45\x00\x00\x1c\x00\x00\x00\x00\x40\x11\x8e\x8f\xc0\x00\x02\x0c\xc6\x33\x64\x02\x03\xe8\x07\xd0\x00\x08\x07\xe4",
            ),
            (
                "sent by IPv6",
                b"\x60\x00\x00\x00\x00\x08\x11\x40\x20\x01\x0d\xb8\x12\x34\x00\x00\x00\x00\x00\x00\x00\x00\x00\x0a\x20\x01\x0d\xb8\x34\x56\x00\x00\x00\x00\x00\x00\x00\x00\x00\x0b\x03\xe8\x07\xd0\x00\x08\x52\x15",
            ),
        ],
    )
}

// What 198.51.100.2 answers, and the same for another address.
fn receiving(rt: &impl Print, client: &End) -> io::Result<()> {
    client.receives(
        rt,
        &[
            (
                "received",
                b"\x00\x45\x00\x00\x1c\x00\x00\x00\x00\x3f\x11\x8f\x90\xc6\x33\x64\x02\xc0\x00\x02\x0b\x07\xd0\x03\xe8\x00\x08\x07\xe5",
            ),
            (
                "received for 192.0.2.12",
                b"\x00\x45\x00\x00\x1c\x00\x00\x00\x00\x3f\x11\x8f\x8f\xc6\x33\x64\x02\xc0\x00\x02\x0c\x07\xd0\x03\xe8\x00\x08\x07\xe4",
            ),
        ],
    )
}

// The other end: it reads the request for any IPv4 address, and writes the two capsules that the client read.
fn proxy(rt: &impl Print) -> io::Result<()> {
    let mut proxy = End::new("full tunnel, proxy");
    proxy.reads(rt, 1, b"\x02\x07\x01\x04\x00\x00\x00\x00\x20")?;
    proxy.assigns(rt, b"\x01\x04\xc0\x00\x02\x0b\x20")?;
    proxy.advertises(rt, b"\x04\x00\x00\x00\x00\xff\xff\xff\xff\x00")?;
    proxy_packets(rt, &proxy)
}

// What the client sent, the same from another address, and the answer.
fn proxy_packets(rt: &impl Print, proxy: &End) -> io::Result<()> {
    proxy.receives(
        rt,
        &[
            (
                "received",
                b"\x00\x45\x00\x00\x1c\x00\x00\x00\x00\x3f\x11\x8f\x90\xc0\x00\x02\x0b\xc6\x33\x64\x02\x03\xe8\x07\xd0\x00\x08\x07\xe5",
            ),
            (
                "received from 192.0.2.12",
                b"\x00\x45\x00\x00\x1c\x00\x00\x00\x00\x3f\x11\x8f\x8f\xc0\x00\x02\x0c\xc6\x33\x64\x02\x03\xe8\x07\xd0\x00\x08\x07\xe4",
            ),
        ],
    )?;
    proxy.sends(
        rt,
        &[(
            "sent",
            b"\x45\x00\x00\x1c\x00\x00\x00\x00\x40\x11\x8e\x90\xc6\x33\x64\x02\xc0\x00\x02\x0b\x07\xd0\x03\xe8\x00\x08\x07\xe5",
        )],
    )
}
