// The marks and outputs of temperature sensors.
#![tactic(auto)]

ghost use Rattle.std.specs.Prelude.{◌≡◌};
ghost use Rattle.sensor.specs.Sensor.{armed, released_of, is_hot, mark_if, status_of, output_of};

// What a sensor waits for: armed, to rise above its over limit; hot, to fall below its hysteresis.
#[derive(Clone, Copy, PartialEq, Eq, Debug)]
pub enum Mark {
    Armed,
    Hot,
}

// How a sensor's status or OVT output goes by its mark. Interrupt: at each crossing that the mark waits for, one step a
// sample; for the status this is the two-times mode.
#[derive(Clone, Copy, PartialEq, Eq, Debug)]
pub enum Mode {
    Comparator,
    Interrupt,
}

// What a sample does to a sensor's status: the mark after it, and whether the status bit is latched.
#[derive(Clone, Copy)]
pub struct Status {
    pub mark: Mark,
    pub latched: bool,
}

// The OVT output of one sensor, with a mark of its own.
#[derive(Clone, Copy)]
pub struct Output {
    pub mark: Mark,
    pub asserted: bool,
}

// Sensor 2 or 3: the mark of its status, and its OVT output.
#[derive(Clone, Copy)]
pub struct Remote {
    pub status: Mark,
    pub output: Output,
}

impl Remote {
    // As power-on and reset leave it.
    pub fn armed() -> Self
        ensures { result ≡ armed }
    {
        let output = Output {
            mark: Mark::Armed,
            asserted: false,
        };
        Remote {
            status: Mark::Armed,
            output,
        }
    }

    // With its OVT output released; both marks stay.
    pub fn released(self) -> Self
        ensures { result ≡ released_of self }
    {
        let output = Output {
            asserted: false,
            ..self.output
        };
        Remote { output, ..self }
    }
}

// Whether a mark is hot. By a match: an equality compares the whole byte that holds the mark, and the flags of an image
// are then put together one by one.
pub fn is_hot(mark: Mark) -> bool
    ensures { result ≡ is_hot mark }
{
    matches!(mark, Mark::Hot)
}

// The mark that is hot or armed; in comparator mode hot is above.
pub fn mark_if(hot: bool) -> Mark
    ensures { result ≡ mark_if hot }
{
    if hot { Mark::Hot } else { Mark::Armed }
}

// The status step of one sensor at a sample, above its over limit or not, below its hysteresis or
// not. Interrupt mode goes by its cases, here and in the OVT step: a function for the crossing that
// the mark waits for leaves the compiler no branch to make, and costs up to 76 instructions a sample.
pub fn status_step(mode: Mode, mark: Mark, above: bool, below: bool) -> Status
    ensures { result ≡ status_of mode mark above below }
{
    match (mode, mark) {
        (Mode::Comparator, _) => Status {
            mark: mark_if(above),
            latched: above,
        },
        (Mode::Interrupt, Mark::Armed) if above => Status {
            mark: Mark::Hot,
            latched: true,
        },
        (Mode::Interrupt, Mark::Hot) if below => Status {
            mark: Mark::Armed,
            latched: true,
        },
        (Mode::Interrupt, _) => Status {
            mark,
            latched: false,
        },
    }
}

// The OVT step of one sensor at a sample.
pub fn output_step(mode: Mode, output: Output, above: bool, below: bool) -> Output
    ensures { result ≡ output_of mode output above below }
{
    match (mode, output.mark) {
        (Mode::Comparator, _) => Output {
            mark: mark_if(above),
            asserted: above || (!below && output.asserted),
        },
        (Mode::Interrupt, Mark::Armed) if above => Output {
            mark: Mark::Hot,
            asserted: true,
        },
        (Mode::Interrupt, Mark::Hot) if below => Output {
            mark: Mark::Armed,
            asserted: true,
        },
        (Mode::Interrupt, _) => output,
    }
}
