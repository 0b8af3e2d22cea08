// The figure for the record of writing 50h to 47h, 01 47 50 and 29 zeros, run: the record is written, its bytes are
// printed, and what they decode to.
#![tactic(auto)]

use answers::answer_number;
use fan::Undivided;
use parts::RECORD;
use std::{fmt, io};
use w83782d_layout::samples::Sample;
use w83782d_record::{Event, Kind};

// A sample that no record can hold: it is kept beside a write and is not looked at.
fn unwritable() -> Sample {
    Sample {
        codes: [1, 2, 3, 4, 5, 6, 7],
        sensor1: -1,
        remote: [256, -257],
        counts: [Undivided(1), Undivided(2), Undivided(3)],
    }
}

// A kind of event in words, as "write 47 50".
#[derive(Clone, Copy)]
struct Words(Kind);

impl fmt::Display for Words {
    fn fmt<W: fmt::Write>(&self, f: &mut fmt::Formatter<W>) -> fmt::Result {
        match self.0 {
            Kind::Write { index, value } => write!(f, "write {index:02x} {value:02x}"),
            Kind::Read { index } => write!(f, "read {index:02x}"),
            Kind::Sample => write!(f, "sample"),
            Kind::Chassis => write!(f, "chassis"),
        }
    }
}

fn print_bytes(rt: &impl Print, bytes: &[u8]) -> io::Result<()> {
    for byte in bytes {
        print!(rt; " {byte:02x}")?;
    }
    println!(rt)
}

fn print_decoded(rt: &impl Print, bytes: &[u8]) -> io::Result<()> {
    match w83782d_record::decode(bytes) {
        Ok(event) => println!(rt; "decoded {}", Words(event.kind)),
        Err(refusal) => println!(rt; "decoded refused {:02x}", refusal.number()),
    }
}

fn main(rt: HostRuntime) -> io::Result<()> {
    let event = Event {
        kind: Kind::Write {
            index: 0x47,
            value: 0x50,
        },
        sample: unwritable(),
    };
    let mut bytes = [0xFFu8; RECORD];
    let answer = w83782d_record::write_record(event, &mut bytes);
    println!(rt; "answer {:02x}", answer_number(answer))?;
    print!(rt; "record")?;
    print_bytes(&rt, &bytes)?;
    print_decoded(&rt, &bytes)
}
