// Section 8.2, figure 18: each end gives the other an address and a route to its own network. The client stands before the branch office, 192.0.2.0/24,
// and the proxy before the corporate network, 203.0.113.0/24.
use crate::end::End;
use std::io;

pub(crate) fn run(rt: &impl Print) -> io::Result<()> {
    let mut client = End::new("site to site");
    // 192.0.2.200 to the proxy, and a route to the branch office
    client.assigns(rt, b"\x00\x04\xc0\x00\x02\xc8\x20")?;
    client.advertises(rt, b"\x04\xc0\x00\x02\x00\xc0\x00\x02\xff\x00")?;
    client.reads(
        rt,
        2,
        b"\x01\x07\x00\x04\xcb\x00\x71\x64\x20\x03\x0a\x04\xcb\x00\x71\x00\xcb\x00\x71\xff\x00",
    )?;
    own_traffic(rt, &client)?;
    maintenance(rt, &client)?;
    refused(rt, &client)
}

// The client at its own address, 203.0.113.100, and a corporate host.
fn own_traffic(rt: &impl Print, client: &End) -> io::Result<()> {
    client.sends(
        rt,
        &[(
            "sent to 203.0.113.9",
            b"\x45\x00\x00\x1c\x00\x00\x00\x00\x40\x11\x02\x63\xcb\x00\x71\x64\xcb\x00\x71\x09\x03\xe8\x07\xd0\x00\x08\x7b\xb7",
        )],
    )?;
    client.receives(
        rt,
        &[(
            "received from 203.0.113.9",
            b"\x00\x45\x00\x00\x1c\x00\x00\x00\x00\x3f\x11\x03\x63\xcb\x00\x71\x09\xcb\x00\x71\x64\x07\xd0\x03\xe8\x00\x08\x7b\xb7",
        )],
    )
}

// The proxy at 192.0.2.200 and the branch office's host 192.0.2.1, whose answer goes by the reply rule.
fn maintenance(rt: &impl Print, client: &End) -> io::Result<()> {
    client.receives(
        rt,
        &[(
            "maintenance received",
            b"\x00\x45\x00\x00\x1c\x00\x00\x00\x00\x3f\x11\xf7\x07\xc0\x00\x02\xc8\xc0\x00\x02\x01\x03\xe8\x07\xd0\x00\x08\x6f\x5c",
        )],
    )?;
    client.sends(
        rt,
        &[(
            "maintenance answered",
            b"\x45\x00\x00\x1c\x00\x00\x00\x00\x40\x11\xf6\x07\xc0\x00\x02\x01\xc0\x00\x02\xc8\x07\xd0\x03\xe8\x00\x08\x6f\x5c",
        )],
    )
}

// A grant needs an assigned address at one end of the packet, so two hosts at addresses of their own are refused: the figure assigns two single addresses.
// Nor does a packet pass that leaves the network of the address it comes from.
fn refused(rt: &impl Print, client: &End) -> io::Result<()> {
    client.sends(
        rt,
        &[
            (
                "sent from 192.0.2.1 to 203.0.113.9",
                b"\x45\x00\x00\x1c\x00\x00\x00\x00\x40\x11\x7c\xc6\xc0\x00\x02\x01\xcb\x00\x71\x09\x03\xe8\x07\xd0\x00\x08\xf6\x1a",
            ),
            (
                "sent to 198.51.100.2",
                b"\x45\x00\x00\x1c\x00\x00\x00\x00\x40\x11\x14\x37\xcb\x00\x71\x64\xc6\x33\x64\x02\x03\xe8\x07\xd0\x00\x08\x8d\x8b",
            ),
        ],
    )?;
    client.receives(
        rt,
        &[(
            "maintenance received for 203.0.113.9",
            b"\x00\x45\x00\x00\x1c\x00\x00\x00\x00\x3f\x11\x7c\xff\xc0\x00\x02\xc8\xcb\x00\x71\x09\x03\xe8\x07\xd0\x00\x08\xf5\x53",
        )],
    )
}
