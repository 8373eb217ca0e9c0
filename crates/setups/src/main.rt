// Runs the five setups of RFC 9484 section 8 and writes a line for each step, to be compared with the file `stdout`. Addresses, ranges, protocols and
// Request IDs are those of the figures; the capsules were put together by hand from the layouts of section 4.7.
#![tactic(auto)]

mod connection_racing; // figure 22
mod end; // end.rt: what an end does
mod full_tunnel; // figure 15
mod sctp_flow; // figure 20
mod site_to_site; // figure 18
mod split_tunnel; // figure 16

use std::io;

fn main(rt: HostRuntime) -> io::Result<()> {
    full_tunnel::run(&rt)?;
    split_tunnel::run(&rt)?;
    site_to_site::run(&rt)?;
    sctp_flow::run(&rt)?;
    connection_racing::run(&rt)
}
