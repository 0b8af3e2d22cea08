// A session of plans: alarms set for the three fans, mixed with the writes, resets and refusals that end them or don't.
// A line for each step: the answer, the divisors' registers, the three limits, and which fans' real-time bits bank 4
// shows.
//
// What each line must say, from the rules. Power-on has 47h 50h (fans 1 and 2 by 2), 4Bh 44h (fan 3 by 2), 5Dh 00h,
// limits 0.
//   1 at 4400        d 2, L 152 (98h): fan 1's bits of 47h are 01 as before. The real-time bits wait for a sample.
//   u 305, u 306     (L+1)d is 306: 305 doesn't ring and 306 does.
//   2 at 42          d 128, L 250 (FAh): 47h bits 7-6 are 11 and 5Dh bit 6 is 1; fan 1's bits stay, and it rings as
//                    before.
//   2 slow           (L+1)d is 32,128: fan 2 rings there and not at 32,127.
//   47h 90           the whole of 47h for fan 2, fan 1's bits as they were: fan 1's plan goes on.
//   47h C0           fan 1's bits wiped: its plan ended, and by d 1 it rings at 305 already.
//   1 again          the plan set anew, 47h D0h; 7Bh is 3Bh: 98h written there again ends nothing, 10h does, and u 40
//                    (20 by 2) is then above the limit 16.
//   3 at 5295        in bank 3 and in standby: d 1, L 253 (FDh), 4Bh bits 7-6 are 00. A sample is answered 4 and rings
//                    nothing.
//   3 slow           back from standby: 254 rings and 253 doesn't.
//   refused          fan 4, and fan 0 at speed 0: 7; fan 3 at 0 and at 1,350,001: 6. Nothing changes.
//   reset            40h 80h: power-on values again, and fan 3 rings by d 2 and limit 0: u 1 is 0 by 2, u 2 is 1.
#![tactic(auto)]

use answers::{Refusal, answer_number};
use fan::Undivided;
use std::io;
use text::Page;
use text_hex::put_small_hex;
use w83782d::Monitor;
use w83782d_layout::samples::Sample;

// A line has a hundred bytes or so.
const LINE_ROOM: usize = 4096;

#[derive(Drop)]
struct Session<'a, R> {
    rt: &'a R,
    monitor: Monitor,
}

// What an index shows while a bank is selected, by a look at a copy: nothing is cleared and no bank selected.
fn shown(m: Monitor, bank: u8, index: u8) -> u8 {
    m.write(0x4e, bank).monitor.look(index).answer.unwrap_or(0)
}

// A byte in base 16 behind a label.
fn put_shown(page: &mut Page, label: &[u8], byte: u8) {
    page.put_bytes(label);
    put_small_hex(page, byte);
}

impl<R: Print> Session<'_, R> {
    // The answer, the registers that a plan writes, the three limits, and which fans' real-time bits are set.
    fn put_report(&self, page: &mut Page, name: &str, answer: Result<(), Refusal>) {
        let at = |bank: u8, index: u8| shown(self.monitor, bank, index);
        let rings = |index: u8, mask: u8| u64::from(at(4, index) & mask != 0);
        page.put_bytes(name.as_bytes());
        page.put_bytes(b": answer");
        page.put_spaced(u64::from(answer_number(answer)));
        put_shown(page, b", 47h ", at(0, 0x47));
        put_shown(page, b", 4Bh ", at(0, 0x4b));
        put_shown(page, b", 5Dh ", at(0, 0x5d));
        put_shown(page, b", limits ", at(0, 0x3b));
        put_shown(page, b" ", at(0, 0x3c));
        put_shown(page, b" ", at(0, 0x3d));
        page.put_bytes(b", rings");
        page.put_spaced(rings(0x59, 0x40));
        page.put_spaced(rings(0x59, 0x80));
        page.put_spaced(rings(0x5a, 0x08));
        page.put_byte(b'\n');
    }

    // One line, by one write.
    fn report(&self, name: &str, answer: Result<(), Refusal>) -> io::Result<()> {
        let mut line = [0u8; LINE_ROOM];
        let mut page = Page {
            out: &mut line,
            at: 0,
        };
        self.put_report(&mut page, name, answer);
        let end = page.at;
        if end > LINE_ROOM {
            return Ok(());
        }
        self.rt.write_all(&line[..end])
    }

    fn plan(&mut self, name: &str, fan: u8, rpm: u32) -> io::Result<()> {
        let done = self.monitor.set_plan(fan, rpm);
        self.monitor = done.monitor;
        self.report(name, done.answer)
    }

    fn write(&mut self, name: &str, index: u8, value: u8) -> io::Result<()> {
        let done = self.monitor.write(index, value);
        self.monitor = done.monitor;
        self.report(name, done.answer)
    }

    // A sample with these undivided counts.
    fn sample(&mut self, name: &str, u1: u32, u2: u32, u3: u32) -> io::Result<()> {
        let done = self.monitor.sample(Sample {
            codes: [0; 7],
            sensor1: 0,
            remote: [0, 0],
            counts: [Undivided(u1), Undivided(u2), Undivided(u3)],
        });
        self.monitor = done.monitor;
        self.report(name, done.answer)
    }

    fn two_fans(&mut self) -> io::Result<()> {
        self.plan("1 at 4400", 1, 4400)?;
        self.sample("u 305", 305, 0, 0)?;
        self.sample("u 306", 306, 0, 0)?;
        self.plan("2 at 42", 2, 42)?;
        self.sample("2 not slow", 305, 32127, 0)?;
        self.sample("2 slow", 306, 32128, 0)
    }

    // The accident: a tool writes the whole of 47h.
    fn rewritten(&mut self) -> io::Result<()> {
        self.write("47h 90", 0x47, 0x90)?;
        self.sample("u 305", 305, 0, 0)?;
        self.sample("u 306", 306, 0, 0)?;
        self.write("47h C0", 0x47, 0xc0)?;
        self.sample("u 305", 305, 0, 0)
    }

    fn aliased(&mut self) -> io::Result<()> {
        self.plan("1 again", 1, 4400)?;
        self.write("7Bh 98", 0x7b, 0x98)?;
        self.sample("u 305", 305, 0, 0)?;
        self.sample("u 306", 306, 0, 0)?;
        self.write("7Bh 10", 0x7b, 0x10)?;
        self.sample("u 40", 40, 0, 0)
    }

    fn stopped(&mut self) -> io::Result<()> {
        self.write("bank 3", 0x4e, 0x03)?;
        self.write("standby", 0x40, 0x00)?;
        self.plan("3 at 5295", 3, 5295)?;
        self.sample("stopped", 0, 0, 254)?;
        self.write("start", 0x40, 0x01)?;
        self.sample("3 not slow", 0, 0, 253)?;
        self.sample("3 slow", 0, 0, 254)
    }

    fn refused(&mut self) -> io::Result<()> {
        self.plan("fan 4", 4, 4400)?;
        self.plan("fan 0 at 0", 0, 0)?;
        self.plan("3 at 0", 3, 0)?;
        self.plan("3 at 1350001", 3, 1350001)?;
        self.sample("3 slow", 0, 0, 254)
    }

    fn reset(&mut self) -> io::Result<()> {
        self.write("reset", 0x40, 0x80)?;
        self.sample("u 1", 0, 0, 1)?;
        self.sample("u 2", 0, 0, 2)
    }
}

fn main(rt: HostRuntime) -> io::Result<()> {
    let mut s = Session {
        rt: &rt,
        monitor: Monitor::power_on(),
    };
    s.two_fans()?;
    s.rewritten()?;
    s.aliased()?;
    s.stopped()?;
    s.refused()?;
    s.reset()
}
