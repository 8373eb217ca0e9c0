// Plan files: read, and those that are good written again.
use plan_write::PLAN_ROOM;
use print::{Refused, Written};
use std::io;
use table::TABLE_WORDS;

pub(crate) fn plans(rt: &impl Print) -> io::Result<()> {
    println!(rt; "plans")?;
    fronts(rt)?;
    contexts(rt)?;
    segments(rt)?;
    checksums(rt)
}

// The mark, the version and the end of a file.
fn fronts(rt: &impl Print) -> io::Result<()> {
    plan_files(
        rt,
        &[
            (
                "the drivers' plan",
                b"\x56\x41\x4e\x00\x01\x01\x02\x01\x0c\x0c\xc0\x00\x02\x03\xc6\x33\x64\x02\x03\xe8\x07\xd0\x01\x1a\x14",
            ),
            ("no templates", b"\x56\x41\x4e\x00\x01\x00"),
            ("wrong mark", b"\x56\x41\x4d\x00\x01\x00"),
            ("wrong version", b"\x56\x41\x4e\x00\x02\x00"),
            ("two bytes of a mark", b"\x56\x41"),
            ("cut behind the mark", b"\x56\x41\x4e"),
            (
                "cut in a segment's bytes",
                b"\x56\x41\x4e\x00\x01\x01\x02\x01\x0c\x0c\xc0\x00\x02\x03\xc6",
            ),
            (
                "a byte left over",
                b"\x56\x41\x4e\x00\x01\x01\x02\x01\x0c\x0c\xc0\x00\x02\x03\xc6\x33\x64\x02\x03\xe8\x07\xd0\x01\x1a\x14\x00",
            ),
        ],
    )
}

// How many templates there are, and their Context IDs.
fn contexts(rt: &impl Print) -> io::Result<()> {
    plan_files(
        rt,
        &[
            ("nine templates", b"\x56\x41\x4e\x00\x01\x09"),
            ("Context ID 0", b"\x56\x41\x4e\x00\x01\x01\x00"),
            (
                "the same Context ID twice",
                b"\x56\x41\x4e\x00\x01\x02\x02\x01\x0c\x01\xc0\x00\x02",
            ),
            ("a longer Context ID", b"\x56\x41\x4e\x00\x01\x01\x40\x02"),
            (
                "a longer number that breaks its rule",
                b"\x56\x41\x4e\x00\x01\x01\x02\x01\x40\x00",
            ),
        ],
    )
}

fn segments(rt: &impl Print) -> io::Result<()> {
    plan_files(
        rt,
        &[
            ("nine segments", b"\x56\x41\x4e\x00\x01\x01\x02\x09"),
            (
                "a segment of no bytes",
                b"\x56\x41\x4e\x00\x01\x01\x02\x01\x0c\x00",
            ),
            (
                "overlapping segments",
                b"\x56\x41\x4e\x00\x01\x01\x02\x02\x0c\x02\x01\x02\x0d\x01",
            ),
            (
                "touching segments",
                b"\x56\x41\x4e\x00\x01\x01\x02\x02\x0c\x02\x01\x02\x0e\x01\x03\x00",
            ),
            (
                "a segment past 128",
                b"\x56\x41\x4e\x00\x01\x01\x02\x01\x40\x7f\x02",
            ),
            (
                "flag 2",
                b"\x56\x41\x4e\x00\x01\x01\x02\x01\x0c\x01\x01\x02",
            ),
        ],
    )
}

fn checksums(rt: &impl Print) -> io::Result<()> {
    plan_files(
        rt,
        &[
            (
                "no segments and flag 0",
                b"\x56\x41\x4e\x00\x01\x01\x02\x00\x00",
            ),
            (
                "no segments and flag 1",
                b"\x56\x41\x4e\x00\x01\x01\x02\x00\x01\x1a\x14",
            ),
            (
                "an odd distance",
                b"\x56\x41\x4e\x00\x01\x01\x02\x00\x01\x1b\x14",
            ),
            (
                "a field in a segment",
                b"\x56\x41\x4e\x00\x01\x01\x02\x01\x1a\x01\x00\x01\x1a\x14",
            ),
            (
                "start below 20",
                b"\x56\x41\x4e\x00\x01\x01\x02\x00\x01\x14\x12",
            ),
        ],
    )
}

// How many templates each file holds, and the file that is written of them; or the refusal.
fn plan_files(rt: &impl Print, files: &[(&str, &[u8])]) -> io::Result<()> {
    for (name, bytes) in files {
        let mut words = [0; TABLE_WORDS];
        let verdict = table::read_plan(bytes, &mut words);
        match verdict {
            Ok(()) => {
                let mut out = [0; PLAN_ROOM];
                let answer = plan_write::write_plan(&words, &mut out);
                println!(rt;
                    "{name}: {} written {}",
                    words[0],
                    Written { answer, out: &out }
                )?;
            }
            Err(why) => println!(rt; "{name}: {}", Refused(why))?,
        }
    }
    Ok(())
}
