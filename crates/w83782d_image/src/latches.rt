// The flags of an image: the chassis latch, sensor 1's mark, then status mark, OVT mark and asserted of sensors 2 and
// 3, and the eight spare bytes behind them. A slice that is not an image of 128 bytes stays, and holds the latches of
// power-on. The eight flags go as one number: one by one they were 54 instructions of a call, taken out and put back.
ghost use Rattle.std.specs.Prelude.{◌≡◌, ◌*◌};
ghost use Rattle.bits.specs.Bits.{number_of, is_on};
ghost use Rattle.sensor.specs.Sensor.{remote, output, mark_if};
ghost use Rattle.w83782d_image.specs.Image.{latches_in, held_latches, flag_bytes, spare_zeros, put_from};

use bits::{Bit, cell, flag, put};
use flags::{flags_at, is_flag, join, put_eight};
use sensor::{Output, Remote, is_hot, mark_if};
use w83782d_latches::Latches;

// The bytes of an image.
pub const IMAGE: usize = 128;

// The first flag, which is the chassis latch, and the first spare byte.
const FLAGS: usize = 112;

const SPARE: usize = 120;

// ---- Latches: of their flags 0 is closed, armed or released, any other byte opened, hot or asserted

// The marks and the output of a sensor, by the places of its three flags among eight.
fn remote_at(flags: u64, status: Bit, mark: Bit, asserted: Bit) -> Remote
    ensures { result
        ≡ remote (mark_if (is_on flags (8 * number_of status)))
        (output (mark_if (is_on flags (8 * number_of mark))) (is_on flags (8 * number_of asserted))) }
{
    Remote {
        status: mark_if(is_flag(flags, status)),
        output: Output {
            mark: mark_if(is_flag(flags, mark)),
            asserted: is_flag(flags, asserted),
        },
    }
}

// The latches that an image holds; of a slice of another length, those of power-on.
pub fn latches_in(image: &[u8]) -> Latches
    ensures { result ≡ held_latches image.now }
{
    if image.len() != IMAGE {
        return Latches::power_on();
    }
    let flags = flags_at(image, FLAGS);
    Latches {
        chassis: is_flag(flags, Bit::B0),
        sensor1: mark_if(is_flag(flags, Bit::B1)),
        remote: [
            remote_at(flags, Bit::B2, Bit::B3, Bit::B4),
            remote_at(flags, Bit::B5, Bit::B6, Bit::B7),
        ],
    }
}

// An image given the latches' flags, as 0 or 1. A slice of another length stays.
pub fn put_latches(image: &mut [u8], latches: Latches)
    ensures { image.new ≡ put_from image.old 112 (flag_bytes latches) }
{
    if image.len() != IMAGE {
        return;
    }
    let two = latches.remote[0];
    let three = latches.remote[1];
    let flags = join(
        latches.chassis,
        is_hot(latches.sensor1),
        is_hot(two.status),
        is_hot(two.output.mark),
        two.output.asserted,
        is_hot(three.status),
        is_hot(three.output.mark),
        three.output.asserted,
    );
    put_eight(image, FLAGS, flags);
}

// The chassis latch alone.
pub fn chassis_in(image: &[u8]) -> bool
    ensures { result ≡ (latches_in image.now).chassis }
{
    cell(image, FLAGS) != 0
}

// The flags written as 0 or 1: what a call leaves that changes no latch. The compiler makes one vector of the
// loop; by flags_at and put_eight it is a dozen instructions more. A slice of another length stays.
pub fn normalise_flags(image: &mut [u8])
    ensures { image.new
        ≡ put_from image.old 112 (flag_bytes (latches_in image.old)) }
{
    if image.len() != IMAGE {
        return;
    }
    for at in FLAGS..SPARE {
        let byte = cell(image, at);
        put(image, at, flag(byte != 0));
    }
}

// The spare bytes made 0. A slice of another length stays.
pub fn clear_spare(image: &mut [u8])
    ensures { image.new ≡ put_from image.old 120 spare_zeros }
{
    if image.len() != IMAGE {
        return;
    }
    image[SPARE..].fill(0);
}
