// Runs the four calls on the examples of paper 01 that are left to a test, on rigs that begin in other states, on rigs with another order of events, on rigs
// that may stop, on gaps and replies, on a running difference and on depot hours, and prints what each answers and leaves. Cells, scratch and outputs begin with 7 everywhere and are lent in part, so that
// what is kept shows: each line ends with how many numbers of each buffer are still 7.
#![tactic(auto)]

ghost use Rattle.std.specs.Prelude.{◌≤◌, length};

use std::io;

fn main(rt: HostRuntime) -> io::Result<()> {
    counts(&rt)?;
    refused_texts(&rt)?;
    let too_long = [10u8; 65536];
    show_count(&rt, "65,536 line ends", &too_long, 0, 1)?;
    lists(&rt)?;
    sequences(&rt)?;
    starts(&rt)?;
    orders(&rt)?;
    stops(&rt)?;
    rules(&rt)?;
    differences(&rt)?;
    hours(&rt)?;
    show_shuffle(&rt, 5, &[4, 4, 4])?;
    show_shuffle(&rt, 2, &[0, 0])
}

fn counts(rt: &impl Print) -> io::Result<()> {
    let a = b"rig\t2\nmon\t2\ngo\t0\t0\t0\ngo\t0\t1\t1\ngo\t1\t0\t0\n";
    let f = b"rig\t2\nmon\t1\ngo\t0\t0\t0\ngo\t0\t1\t0\n";
    let one = b"rig\t1\nmon\t1\ngo\t0\t0\t0\n";
    let most = b"rig\t1\nmon\t32\ngo\t0\t0\t0\nmon\t32\ngo\t0\t0\t0\n";
    let beside = b"rig\t2\nmon\t2\ngo\t0\t0\t0\ngo\t1\t0\t1\ngo\t1\t1\t1\n";
    show_count(rt, "F h 63", f, 63, 64)?;
    show_count(rt, "F h 64", f, 64, 65)?;
    show_count(rt, "one state h 1,000", one, 1000, 1001)?;
    show_count(rt, "one state h 1,001", one, 1001, 1002)?;
    show_count(rt, "P 1,024", most, 0, 1024)?;
    show_count(rt, "A h 3, 8 cells", a, 3, 8)?;
    show_count(rt, "A h 3, 7 cells", a, 3, 7)?;
    show_count(rt, "full cells beside", beside, 100, 202)?;
    show_count(rt, "one state, no go", b"rig\t1\nmon\t1\n", 3, 4)
}

fn refused_texts(rt: &impl Print) -> io::Result<()> {
    show_count(rt, "mon with no S", b"rig\t2\nmon\n", 0, 1)?;
    show_count(rt, "last line unended", b"rig\t2\nmon\t2", 0, 1)?;
    show_count(rt, "rig 17", b"rig\t17\n", 0, 1)?;
    show_count(
        rt,
        "go twice",
        b"rig\t1\nmon\t1\ngo\t0\t0\t0\ngo\t0\t0\t0\n",
        0,
        1,
    )?;
    show_count(rt, "empty text", b"", 0, 1)?;
    show_count(
        rt,
        "S of 32, 32, 2",
        b"rig\t1\nmon\t32\nmon\t32\nmon\t2\n",
        0,
        1,
    )?;
    show_count(rt, "a bad text before 7", b"rig\t17\n", 1001, 1)
}

fn lists(rt: &impl Print) -> io::Result<()> {
    let a = b"rig\t2\nmon\t2\ngo\t0\t0\t0\ngo\t0\t1\t1\ngo\t1\t0\t0\n";
    let dead = b"rig\t1\nmon\t1\n";
    show_list(rt, "A h 3: 4 2 2", a, 3, &[4, 2, 2], 9)?;
    show_list(rt, "2 indices, h 3, 5 bytes", a, 3, &[0, 1], 5)?;
    show_list(rt, "A h 3: 1 5", a, 3, &[1, 5], 9)?;
    show_list(rt, "A h 3: none", a, 3, &[], 0)?;
    show_list(rt, "A h 0: 0 0", a, 0, &[0, 0], 0)?;
    show_list(rt, "12 before 9", dead, 3, &[0, 1], 5)?;
    show_list(rt, "9", dead, 3, &[0, 1], 6)
}

fn sequences(rt: &impl Print) -> io::Result<()> {
    let a = b"rig\t2\nmon\t2\ngo\t0\t0\t0\ngo\t0\t1\t1\ngo\t1\t0\t0\n";
    let f = b"rig\t2\nmon\t1\ngo\t0\t0\t0\ngo\t0\t1\t0\n";
    let dead = b"rig\t1\nmon\t1\n";
    show_index(rt, "A: 1 0 1", a, &[1, 0, 1])?;
    show_index(rt, "A: 0 1 1", a, &[0, 1, 1])?;
    show_index(rt, "E 2: 0 2", a, &[0, 2])?;
    show_index(rt, "F: 64 bytes of 2", f, &[2; 64])?;
    show_index(rt, "F: 64 bytes of 0", f, &[0; 64])?;
    show_index(rt, "13 before 9", dead, &[0, 2])
}

// A from its state 1.
fn starts(rt: &impl Print) -> io::Result<()> {
    let a = b"rig\t2\nmon\t2\t1\ngo\t0\t0\t0\ngo\t0\t1\t1\ngo\t1\t0\t0\n";
    show_count(rt, "A from 1 h 3", a, 3, 8)?;
    show_list(rt, "A from 1 h 3: 2 0 1", a, 3, &[2, 0, 1], 9)?;
    show_index(rt, "A from 1: 0 1 0", a, &[0, 1, 0])?;
    show_index(rt, "A from 1: 1 0 1", a, &[1, 0, 1])
}

fn orders(rt: &impl Print) -> io::Result<()> {
    let a = b"rig\t2\nord\t1\t0\nmon\t2\ngo\t0\t0\t0\ngo\t0\t1\t1\ngo\t1\t0\t0\n";
    show_count(rt, "A with ord 1 0 h 3", a, 3, 8)?;
    show_list(rt, "A with ord 1 0 h 3: 0 2 4", a, 3, &[0, 2, 4], 9)?;
    show_index(rt, "A with ord 1 0: 0 1 0", a, &[0, 1, 0])?;
    show_index(rt, "A with ord 1 0: 0 1 1", a, &[0, 1, 1])?;
    show_count(
        rt,
        "an event twice in ord",
        b"rig\t2\nord\t1\t1\nmon\t1\n",
        0,
        1,
    )
}

// One event and then the depot is closed; the same with a second monitor, marked and not; and a depot that closes or goes on.
fn stops(rt: &impl Print) -> io::Result<()> {
    let closes = b"rig\t1\nmon\t2\ngo\t0\t0\t1\nstop\t1\n";
    let both = b"rig\t1\nmon\t2\ngo\t0\t0\t1\nstop\t1\nmon\t2\nstop\t1\ngo\t0\t0\t1\n";
    let one = b"rig\t1\nmon\t2\ngo\t0\t0\t1\nstop\t1\nmon\t2\ngo\t0\t0\t1\n";
    let may = b"rig\t2\nmon\t4\ngo\t0\t0\t1\ngo\t0\t1\t2\ngo\t2\t1\t2\nstop\t1\n";
    show_count(rt, "closes h 0", closes, 0, 2)?;
    show_count(rt, "closes h 1", closes, 1, 4)?;
    show_count(rt, "closes h 2", closes, 2, 6)?;
    show_count(rt, "both marked h 1", both, 1, 8)?;
    show_count(rt, "one not marked h 1", one, 1, 8)?;
    show_list(rt, "may close h 1: 1 0", may, 1, &[1, 0], 2)?;
    show_index(rt, "may close: 0", may, &[0])?;
    show_index(rt, "may close: 0 1", may, &[0, 1])?;
    show_index(rt, "may close: 1 1", may, &[1, 1])?;
    show_count(
        rt,
        "a state marked twice",
        b"rig\t1\nmon\t1\nstop\t0\nstop\t0\n",
        0,
        1,
    )
}

// A gap on the only event; a reply 2 or 3 steps later; an event that is barred for longer than a reply to another can wait.
fn rules(rt: &impl Print) -> io::Result<()> {
    let gap = b"rig\t1\ngap\t0\t2\n";
    let reply = b"rig\t3\nreply\t0\t1\t2\t3\n";
    let both = b"rig\t2\ngap\t1\t4\nreply\t0\t1\t1\t2\n";
    show_count(rt, "gap h 1", gap, 1, 4)?;
    show_count(rt, "gap h 2", gap, 2, 6)?;
    show_count(rt, "reply h 3", reply, 3, 16)?;
    show_list(rt, "reply h 1: 2 0 1", reply, 1, &[2, 0, 1], 3)?;
    show_index(rt, "reply: 0 2 2", reply, &[0, 2, 2])?;
    show_index(rt, "reply: 0 1 0", reply, &[0, 1, 0])?;
    show_count(rt, "gap and reply h 2", both, 2, 36)?;
    show_index(rt, "gap and reply: 1 0", both, &[1, 0])?;
    show_count(
        rt,
        "a reply to itself",
        b"rig\t2\nreply\t1\t1\t1\t1\n",
        0,
        1,
    )
}

// A difference from -1 to 2: event 0 adds 2, event 1 takes 1.
fn differences(rt: &impl Print) -> io::Result<()> {
    let meters = b"rig\t2\nbal\t-1\t2\namp\t0\t2\namp\t1\t-1\n";
    show_count(rt, "bal h 2", meters, 2, 12)?;
    show_list(rt, "bal h 1: 1 0 1", meters, 1, &[1, 0, 1], 3)?;
    show_index(rt, "bal: 1 0", meters, &[1, 0])?;
    show_index(rt, "bal: 0 1 0", meters, &[0, 1, 0])?;
    show_index(rt, "bal: 1 1", meters, &[1, 1])?;
    show_count(
        rt,
        "an event given twice",
        b"rig\t1\nbal\t0\t1\namp\t0\t1\namp\t0\t0\n",
        0,
        1,
    )
}

// A day of three steps with event 1 at the first and the last; and one of two steps in which a reply is due when its event isn't admitted.
fn hours(rt: &impl Print) -> io::Result<()> {
    let day = b"rig\t2\nday\t3\nopen\t1\t0\t1\nopen\t1\t2\t3\n";
    let both = b"rig\t2\nreply\t0\t1\t1\t1\nday\t2\nopen\t1\t0\t1\n";
    show_count(rt, "day h 4", day, 4, 15)?;
    show_list(rt, "day h 1: 1 0 1", day, 1, &[1, 0, 1], 3)?;
    show_index(rt, "day: 1 0 1 1", day, &[1, 0, 1, 1])?;
    show_index(rt, "day: 0 1", day, &[0, 1])?;
    show_index(rt, "day: 1 0 1 1 1", day, &[1, 0, 1, 1, 1])?;
    show_count(rt, "reply and day h 3", both, 3, 16)?;
    show_index(rt, "reply and day: 0", both, &[0])?;
    show_count(
        rt,
        "hours from 1 to 1",
        b"rig\t1\nday\t2\nopen\t0\t1\t1\n",
        0,
        1,
    )
}

// How many numbers are still 7.
fn sevens(numbers: &[u64]) -> usize
    ensures { result ≤ length numbers.now }
{
    numbers.iter().filter(|n| **n == 7).count()
}

// Count with so many cells of 2,064.
fn show_count(rt: &impl Print, name: &str, text: &[u8], h: u64, lent: usize) -> io::Result<()>
    requires { lent ≤ 2064 }
{
    let mut cells = [7; 2064];
    print!(rt; "{name}")?;
    match generator::count(text, h, &mut cells[..lent]) {
        Ok(counted) => print!(rt; "\tcount\t{}\t{}", counted.count, counted.passes)?,
        Err(refusal) => print!(rt; "\t{refusal}")?,
    }
    println!(rt; "\t{}", sevens(&cells))
}

// Scenarios with 8 cells of 16 and so many bytes of 12.
fn show_list(
    rt: &impl Print,
    name: &str,
    text: &[u8],
    h: u64,
    list: &[u64],
    lent: usize,
) -> io::Result<()>
    requires { lent ≤ 12 }
{
    let mut cells = [7; 16];
    let mut out = [7u8; 12];
    print!(rt; "{name}")?;
    match generator::scenarios(text, h, list, &mut cells[..8], &mut out[..lent]) {
        Ok(()) => print!(rt; "\tserved")?,
        Err(refusal) => print!(rt; "\t{refusal}")?,
    }
    for byte in &out {
        print!(rt; "\t{byte}")?;
    }
    println!(rt; "\t{}", sevens(&cells))
}

// Index with 130 cells of 140.
fn show_index(rt: &impl Print, name: &str, text: &[u8], sequence: &[u8]) -> io::Result<()> {
    let mut cells = [7; 140];
    print!(rt; "{name}")?;
    match generator::index(text, sequence, &mut cells[..130]) {
        Ok(i) => print!(rt; "\tindex\t{i}")?,
        Err(refusal) => print!(rt; "\t{refusal}")?,
    }
    println!(rt; "\t{}", sevens(&cells))
}

// Shuffle with 6 scratch numbers of 8 and 3 outputs of 5.
fn show_shuffle(rt: &impl Print, n: u64, draws: &[u64]) -> io::Result<()> {
    let mut scratch = [7; 8];
    let mut out = [7u64; 5];
    print!(rt; "shuffle")?;
    match generator::shuffle_indices(n, draws, &mut scratch[..6], &mut out[..3]) {
        Ok(()) => print!(rt; "\tserved")?,
        Err(refusal) => print!(rt; "\t{refusal}")?,
    }
    for number in &out {
        print!(rt; "\t{number}")?;
    }
    println!(rt)
}
