// Reads texts and prints what each gives: `read`, E, the events in their order, the number of moves on these, each S with its start and, where states are
// marked, `stop` and their number; or `no`, the number and the place.
// The texts of standard input each have a name up to a line end before them and byte 28 after them; those at the limit of 65,535 bytes are made here.
#![tactic(auto)]

use rig::{NO_MOVE, Rig};
use std::io;

// How many entries of a table are others than `none`, of the first `width` of each sixteen.
fn entries_in(table: &[u8], none: u8, width: usize) -> usize {
    table
        .iter()
        .enumerate()
        .filter(|(i, entry)| i % 16 < width && **entry != none)
        .count()
}

fn say_record(rt: &impl Print, r: &Rig) -> io::Result<()> {
    print!(rt; "\tread\t{}", r.events)?;
    for event in r.order.iter().take(r.events) {
        print!(rt; "\t{event}")?;
    }
    print!(rt; "\t{}", entries_in(&r.moves, NO_MOVE, r.events))?;
    for (count, start) in r.counts.iter().zip(&r.starts).take(r.monitors) {
        print!(rt; "\t{count}\t{start}")?;
    }
    let marks = entries_in(&r.stops, 0, 16);
    if marks > 0 {
        print!(rt; "\tstop\t{marks}")?;
    }
    Ok(())
}

fn show(rt: &impl Print, name: &[u8], text: &[u8]) -> io::Result<()> {
    rt.write_all(name)?;
    match reader::read(text) {
        Ok(r) => say_record(rt, &r)?,
        Err(refusal) => print!(rt; "\t{refusal}")?,
    }
    println!(rt)
}

// Each stored text: its name, a line end, its bytes.
fn show_all(rt: &impl Print, stored: &[u8]) -> io::Result<()> {
    for piece in stored.split(|byte| *byte == 28) {
        if let Some((name, text)) = decoding::split_at_byte(piece, b'\n') {
            show(rt, name, text)?;
        }
    }
    Ok(())
}

// Texts of line ends, at the limit of 65,535 bytes and past it.
fn line_ends(rt: &impl Print) -> io::Result<()> {
    let most = [b'\n'; 65535];
    show(rt, b"65,535 line ends", &most)?;
    let over = [b'\n'; 65536];
    show(rt, b"65,536 line ends", &over)
}

// A line of 65,534 bytes, ended, and with one byte more, and not ended.
fn long_line(rt: &impl Print) -> io::Result<()> {
    let mut ended = [b'x'; 65535];
    ended[65534] = b'\n';
    show(rt, b"one line of 65,534 bytes", &ended)?;
    let mut over = [b'x'; 65536];
    over[65534] = b'\n';
    show(rt, b"one line of 65,534 bytes, and one byte", &over)?;
    let unended = [b'x'; 65534];
    show(rt, b"65,534 bytes unended", &unended)
}

fn main(rt: HostRuntime) -> io::Result<()> {
    let mut stored = [0u8; 65536];
    let n = input::read_full(&mut rt.stdin(), &mut stored)?;
    show_all(&rt, &stored[..n])?;
    line_ends(&rt)?;
    long_line(&rt)
}
