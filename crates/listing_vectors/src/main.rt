// Prints listings, or the part of one, each after a line with its name.
#![tactic(auto)]

use std::io;

fn show(rt: &impl Print, name: &str, input: &[u8], from: u64, to: u64) -> io::Result<()> {
    println!(rt; "{name}")?;
    printing::print_part(&mut io::writer(rt), input, from, to)
}

// Listings that are served.
fn served(rt: &impl Print) -> io::Result<()> {
    let parts = [
        (
            "B at 1",
            "ask\t1\nrig\t2\nmon\t2\ngo\t0\t0\t0\ngo\t0\t1\t1\ngo\t1\t0\t0\nmon\t2\ngo\t0\t0\t0\ngo\t0\t1\t1\ngo\t1\t1\t1\n",
            0,
            1000,
        ),
        (
            "A at 0",
            "ask\t0\nrig\t2\nmon\t2\ngo\t0\t0\t0\ngo\t0\t1\t1\ngo\t1\t0\t0\n",
            0,
            1000,
        ),
        (
            "A from 1 at 3",
            "ask\t3\nrig\t2\nmon\t2\t1\ngo\t0\t0\t0\ngo\t0\t1\t1\ngo\t1\t0\t0\n",
            0,
            1000,
        ),
        (
            "two monitors with starts at 3",
            "ask\t3\nrig\t2\nmon\t2\t1\ngo\t0\t0\t0\ngo\t0\t1\t1\ngo\t1\t0\t0\nmon\t3\t2\ngo\t0\t0\t2\ngo\t0\t1\t0\ngo\t1\t0\t0\ngo\t1\t1\t2\ngo\t2\t0\t1\n",
            0,
            1000,
        ),
        (
            "A with ord 1 0 at 3",
            "ask\t3\nrig\t2\nord\t1\t0\nmon\t2\ngo\t0\t0\t0\ngo\t0\t1\t1\ngo\t1\t0\t0\n",
            0,
            1000,
        ),
        (
            "three events with ord 2 0 1 at 2",
            "ask\t2\nrig\t3\nord\t2\t0\t1\nmon\t2\ngo\t0\t0\t0\ngo\t0\t1\t1\ngo\t0\t2\t1\ngo\t1\t2\t0\ngo\t1\t1\t0\n",
            0,
            1000,
        ),
        (
            "a day of three steps at 4",
            "ask\t4\nrig\t2\nday\t3\nopen\t1\t0\t1\nopen\t1\t2\t3\n",
            0,
            1000,
        ),
        (
            "A at 14, the last of 987 lines",
            "ask\t14\nrig\t2\nmon\t2\ngo\t0\t0\t0\ngo\t0\t1\t1\ngo\t1\t0\t0\n",
            985,
            1000,
        ),
        (
            "A at 20, the last of 1,000 lines",
            "ask\t20\nrig\t2\nmon\t2\ngo\t0\t0\t0\ngo\t0\t1\t1\ngo\t1\t0\t0\n",
            998,
            2000,
        ),
        (
            "F at 63, the first lines",
            "ask\t63\nrig\t2\nmon\t1\ngo\t0\t0\t0\ngo\t0\t1\t0\n",
            0,
            2,
        ),
        (
            "F at 63, the last of 1,000 lines",
            "ask\t63\nrig\t2\nmon\t1\ngo\t0\t0\t0\ngo\t0\t1\t0\n",
            999,
            2000,
        ),
        (
            "sixteen events at 2, the last of 256 lines",
            "ask\t2\nrig\t16\nmon\t1\ngo\t0\t0\t0\ngo\t0\t1\t0\ngo\t0\t2\t0\ngo\t0\t3\t0\ngo\t0\t4\t0\ngo\t0\t5\t0\ngo\t0\t6\t0\ngo\t0\t7\t0\ngo\t0\t8\t0\ngo\t0\t9\t0\ngo\t0\t10\t0\ngo\t0\t11\t0\ngo\t0\t12\t0\ngo\t0\t13\t0\ngo\t0\t14\t0\ngo\t0\t15\t0\n",
            254,
            1000,
        ),
        (
            "one event at 1,000",
            "ask\t1000\nrig\t1\nmon\t1\ngo\t0\t0\t0\n",
            0,
            1000,
        ),
        (
            "1,024 joint states at 7",
            "ask\t7\nrig\t1\nmon\t32\ngo\t0\t0\t0\nmon\t32\ngo\t0\t0\t0\n",
            0,
            1000,
        ),
    ];
    for (name, input, from, to) in parts {
        show(rt, name, input.as_bytes(), from, to)?;
    }
    Ok(())
}

// A refusal for each number but 1.
fn refused(rt: &impl Print) -> io::Result<()> {
    let listings = [
        ("2, mon with no S", "ask\t3\nrig\t2\nmon\n"),
        ("2, last line unended", "ask\t3\nrig\t2\nmon\t2"),
        ("2 before 7", "ask\t1001\nrig\t2\n\n"),
        ("3, rig 17", "ask\t3\nrig\t17\n"),
        (
            "3, a fifth mon",
            "ask\t3\nrig\t1\nmon\t1\nmon\t1\nmon\t1\nmon\t1\nmon\t1\n",
        ),
        ("3, a start not below S", "ask\t3\nrig\t1\nmon\t2\t2\n"),
        (
            "4, go twice",
            "ask\t3\nrig\t1\nmon\t1\ngo\t0\t0\t0\ngo\t0\t0\t0\n",
        ),
        ("5, empty text", "ask\t3\n"),
        ("5, no mon by the end", "ask\t3\nrig\t2\n"),
        ("6, 32, 32, 2", "ask\t3\nrig\t1\nmon\t32\nmon\t32\nmon\t2\n"),
        ("7, 1,001", "ask\t1001\nrig\t1\nmon\t1\ngo\t0\t0\t0\n"),
        ("7, 99,999", "ask\t99999\nrig\t1\nmon\t1\ngo\t0\t0\t0\n"),
        (
            "8, 1,024 joint states at 8",
            "ask\t8\nrig\t1\nmon\t32\ngo\t0\t0\t0\nmon\t32\ngo\t0\t0\t0\n",
        ),
        (
            "16, an event twice in ord",
            "ask\t3\nrig\t2\nord\t1\t1\nmon\t2\n",
        ),
        (
            "17, a reply to itself",
            "ask\t3\nrig\t2\nreply\t1\t1\t1\t1\n",
        ),
        (
            "18, hours from 1 to 1",
            "ask\t3\nrig\t1\nday\t2\nopen\t0\t1\t1\n",
        ),
        ("9, no go", "ask\t3\nrig\t1\nmon\t1\n"),
        (
            "10, F at 64",
            "ask\t64\nrig\t2\nmon\t1\ngo\t0\t0\t0\ngo\t0\t1\t0\n",
        ),
    ];
    for (name, input) in listings {
        show(rt, name, input.as_bytes(), 0, 1000)?;
    }
    Ok(())
}

// First lines that are no `ask` line, each before a text that would be served.
fn bad_asks(rt: &impl Print) -> io::Result<()> {
    let listings = [
        ("nothing", ""),
        ("unended", "ask\t3"),
        ("a line end alone", "\nrig\t1\nmon\t1\ngo\t0\t0\t0\n"),
        ("no horizon", "ask\nrig\t1\nmon\t1\ngo\t0\t0\t0\n"),
        ("an empty field", "ask\t\nrig\t1\nmon\t1\ngo\t0\t0\t0\n"),
        ("a leading zero", "ask\t03\nrig\t1\nmon\t1\ngo\t0\t0\t0\n"),
        ("six digits", "ask\t100000\nrig\t1\nmon\t1\ngo\t0\t0\t0\n"),
        ("a third field", "ask\t3\t\nrig\t1\nmon\t1\ngo\t0\t0\t0\n"),
        ("two tabs", "ask\t\t3\nrig\t1\nmon\t1\ngo\t0\t0\t0\n"),
        ("a space", "ask 3\nrig\t1\nmon\t1\ngo\t0\t0\t0\n"),
        ("another case", "Ask\t3\nrig\t1\nmon\t1\ngo\t0\t0\t0\n"),
        ("another word", "asks\t3\nrig\t1\nmon\t1\ngo\t0\t0\t0\n"),
        ("a shorter word", "as\t3\nrig\t1\nmon\t1\ngo\t0\t0\t0\n"),
        ("byte 13", "ask\t3\r\nrig\t1\nmon\t1\ngo\t0\t0\t0\n"),
        ("a sign", "ask\t-3\nrig\t1\nmon\t1\ngo\t0\t0\t0\n"),
        ("no ask line", "rig\t1\nmon\t1\ngo\t0\t0\t0\n"),
    ];
    for (name, input) in listings {
        show(rt, name, input.as_bytes(), 0, 1000)?;
    }
    Ok(())
}

// Texts at the limit of 65,535 bytes, and an input without any line end.
fn long(rt: &impl Print) -> io::Result<()> {
    let mut input = [b'\n'; 65542];
    input[..5].copy_from_slice(b"ask\t3");
    show(rt, "2, 65,535 line ends", &input[..65541], 0, 1000)?;
    show(rt, "1, 65,536 line ends", &input, 0, 1000)?;
    input[0] = b'A';
    show(rt, "a bad line before 65,536 line ends", &input, 0, 1000)?;
    let endless = [b'a'; 65546];
    show(rt, "no line end", &endless, 0, 1000)
}

fn main(rt: HostRuntime) -> io::Result<()> {
    served(&rt)?;
    refused(&rt)?;
    bad_asks(&rt)?;
    long(&rt)
}
