// Sessions with a monitor, each from power-on: a driver's on the bus, and one of samples.
// A line for each step; what it must say follows from the rules, and each module gives it.
#![tactic(auto)]

mod bus;
mod samples;

use std::io;
use w83782d::Monitor;

// Where the lines go, and the monitor.
#[derive(Drop)]
struct Session<'a, R> {
    rt: &'a R,
    monitor: Monitor,
}

impl<'a, R> Session<'a, R> {
    fn power_on(rt: &'a R) -> Self {
        Session {
            rt,
            monitor: Monitor::power_on(),
        }
    }
}

fn main(rt: HostRuntime) -> io::Result<()> {
    Session::power_on(&rt).access()?;
    Session::power_on(&rt).take_samples()
}
