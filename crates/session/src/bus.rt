// A short bus session, as a driver's: it finds the chip, switches banks, and is refused in each way.
// A line for each access: what it was, the answer, and the byte that a read shows.
use crate::Session;
use answers::answer_number;
use std::io;

impl<R: Print> Session<'_, R> {
    fn write(&mut self, index: u8, value: u8) -> io::Result<()> {
        let done = self.monitor.write(index, value);
        self.monitor = done.monitor;
        let answer = answer_number(done.answer);
        println!(self.rt; "write {index:02x} {value:02x}: answer {answer}")
    }

    fn read(&mut self, index: u8) -> io::Result<()> {
        let done = self.monitor.read(index);
        self.monitor = done.monitor;
        let answer = answer_number(done.answer);
        let byte = done.answer.unwrap_or(0);
        println!(self.rt; "read {index:02x}: answer {answer}, byte {byte:02x}")
    }

    fn open_chassis(&mut self) -> io::Result<()> {
        let done = self.monitor.chassis_opened();
        self.monitor = done.monitor;
        let answer = answer_number(done.answer);
        println!(self.rt; "chassis opened: answer {answer}")
    }

    // The vendor bytes by 4Eh bit 7, the chip, and its address.
    fn detect(&mut self) -> io::Result<()> {
        self.write(0x4e, 0x80)?;
        self.read(0x4f)?;
        self.write(0x4e, 0x00)?;
        self.read(0x4f)?;
        self.read(0x58)?;
        self.read(0x48)
    }

    // Bank 1 keeps a limit of its own at an index that bank 0 does not have; 60h-7Fh ignores the bank.
    fn banks(&mut self) -> io::Result<()> {
        self.write(0x4e, 0x01)?;
        self.read(0x55)?;
        self.write(0x55, 0x46)?;
        self.read(0x55)?;
        self.write(0x7b, 0x99)?;
        self.write(0x4e, 0x00)?;
        self.read(0x3b)?;
        self.read(0x55)
    }

    // 1 below 20h, above 7Fh, reserved, in an absent bank; 2 for a register that can't be written.
    fn refusals(&mut self) -> io::Result<()> {
        self.read(0x1f)?;
        self.read(0x80)?;
        self.read(0x45)?;
        self.write(0x4e, 0x03)?;
        self.write(0x50, 0xff)?;
        self.read(0x50)?;
        self.write(0x4e, 0x00)?;
        self.write(0x20, 0xff)?;
        self.write(0x58, 0x00)
    }

    // The chassis bit is the latch: reads leave it, 46h clears it. A reset keeps the address.
    fn chassis_and_reset(&mut self) -> io::Result<()> {
        self.open_chassis()?;
        self.read(0x42)?;
        self.read(0x42)?;
        self.write(0x46, 0x80)?;
        self.read(0x42)?;
        self.write(0x47, 0xff)?;
        self.read(0x47)?;
        self.write(0x48, 0x2e)?;
        self.write(0x40, 0xff)?;
        self.read(0x40)?;
        self.read(0x47)?;
        self.read(0x48)
    }

    pub(crate) fn access(&mut self) -> io::Result<()> {
        self.detect()?;
        self.banks()?;
        self.refusals()?;
        self.chassis_and_reset()
    }
}
