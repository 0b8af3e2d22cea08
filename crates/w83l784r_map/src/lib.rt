// The register map of the W83L784R: named cells, sets of cells and values by cell, and what the rows say of a cell:
// whether it is a register, the answer to a bus write, the bits it stores and shows, its power-on value, whether a
// reset keeps it, whether it is an identity. A number past the last cell is no register.
#![tactic(auto)]

ghost use Rattle.std.specs.Prelude.{◌≡◌};
ghost use Rattle.answers.specs.Refusals.{answer_of};
ghost use Rattle.w83l784r_map.specs.Map.{present_at, power_on_at, kept_at, identity_at};
ghost use Rattle.w83l784r_map.specs.Access.{write_answer, stored_bits, shown_bits};

use answers::Refusal;
use bits::CellSet;

// ---- Cells: the main device's 20h-5Fh and 80h-9Fh, then the sets of sensors 2 and 3

pub const CELLS: usize = 112;

// The code of rail i is at VIN1 + i, its limits at VIN1_HIGH + 2i and VIN1_LOW + 2i; the count of fan f is at
// FAN_COUNTS + f, its limit at FAN_LIMITS + f.
pub const VIN1: usize = 0x20 - 0x20;

const VIN3: usize = 0x21 - 0x20;

const VIN2: usize = 0x22 - 0x20;

const VCC: usize = 0x23 - 0x20;

pub const SENSOR_1: usize = 0x27 - 0x20;

pub const FAN_COUNTS: usize = 0x27 - 0x20;

const FAN_1_COUNT: usize = FAN_COUNTS + 1;

const FAN_2_COUNT: usize = FAN_COUNTS + 2;

pub const VIN1_HIGH: usize = 0x2b - 0x20;

pub const VIN1_LOW: usize = 0x2c - 0x20;

const VIN3_HIGH: usize = 0x2d - 0x20;

const VIN3_LOW: usize = 0x2e - 0x20;

const VIN2_HIGH: usize = 0x2f - 0x20;

const VIN2_LOW: usize = 0x30 - 0x20;

const VCC_HIGH: usize = 0x31 - 0x20;

const VCC_LOW: usize = 0x32 - 0x20;

pub const SENSOR_1_OVER: usize = 0x39 - 0x20;

pub const SENSOR_1_HYSTERESIS: usize = 0x3a - 0x20;

pub const FAN_LIMITS: usize = 0x3a - 0x20;

const FAN_1_LIMIT: usize = FAN_LIMITS + 1;

const FAN_2_LIMIT: usize = FAN_LIMITS + 2;

pub const CONFIGURATION: usize = 0x40 - 0x20;

pub const INTERRUPT_STATUS_1: usize = 0x41 - 0x20;

pub const INTERRUPT_STATUS_2: usize = 0x42 - 0x20;

pub const SMI_MASK_1: usize = 0x43 - 0x20;

pub const SMI_MASK_2: usize = 0x44 - 0x20;

pub const REAL_TIME_STATUS_1: usize = 0x45 - 0x20;

pub const REAL_TIME_STATUS_2: usize = 0x46 - 0x20;

pub const FAN_DIVISOR: usize = 0x49 - 0x20;

pub const BUS_ADDRESS: usize = 0x4a - 0x20;

pub const SENSOR_ADDRESSES: usize = 0x4b - 0x20;

const VENDOR_ID_LOW: usize = 0x4c - 0x20;

const VENDOR_ID_HIGH: usize = 0x4d - 0x20;

const CHIP_ID: usize = 0x4e - 0x20;

pub const ACPI_STEP: usize = 0x4f - 0x20;

pub const OVT_CONTROL: usize = 0x50 - 0x20;

pub const SMI_CONTROL: usize = 0x51 - 0x20;

const GPO_CONTROL: usize = 0x52 - 0x20;

const SENSOR_TYPES: usize = 0x53 - 0x20;

const MISC_CONTROL: usize = 0x54 - 0x20;

const FAULT_CONTROL: usize = 0x55 - 0x20;

const FAN_1_FAULT_HIGH: usize = 0x56 - 0x20;

const FAN_1_FAULT_LOW: usize = 0x57 - 0x20;

const FAN_2_FAULT_HIGH: usize = 0x58 - 0x20;

const FAN_2_FAULT_LOW: usize = 0x59 - 0x20;

const VBAT_FAULT_HIGH: usize = 0x5a - 0x20;

const VBAT_FAULT_LOW: usize = 0x5b - 0x20;

const FAN_1_PRE_SCALE: usize = 0x80 - 0x40;

const FAN_1_DUTY: usize = 0x81 - 0x40;

const FAN_2_PRE_SCALE: usize = 0x82 - 0x40;

const FAN_2_DUTY: usize = 0x83 - 0x40;

const FAN_CONFIGURATION: usize = 0x84 - 0x40;

const FAN_1_TARGET: usize = 0x85 - 0x40;

const FAN_2_TARGET: usize = 0x86 - 0x40;

const TOLERANCES: usize = 0x87 - 0x40;

const FAN_1_STOP_DUTY: usize = 0x88 - 0x40;

const FAN_2_STOP_DUTY: usize = 0x89 - 0x40;

const FAN_1_START_UP_DUTY: usize = 0x8a - 0x40;

const FAN_2_START_UP_DUTY: usize = 0x8b - 0x40;

const FAN_1_STOP_TIME: usize = 0x8c - 0x40;

const FAN_2_STOP_TIME: usize = 0x8d - 0x40;

const STEP_DOWN_TIME: usize = 0x8e - 0x40;

const STEP_UP_TIME: usize = 0x8f - 0x40;

// The offset of sensor n is at OFFSETS + n.
pub const OFFSETS: usize = 0x8f - 0x40;

const OFFSET_1: usize = OFFSETS + 1;

const OFFSET_2: usize = OFFSETS + 2;

const OFFSET_3: usize = OFFSETS + 3;

// 00h of the set of sensor 2 or 3; on from there its 01h, one byte, 02h and 03h, high byte before low.
pub const SENSOR_CONFIGURATION: usize = 2;

pub const SENSOR_HYSTERESIS: usize = 3;

pub const SENSOR_OVER: usize = 5;

pub const SENSOR_2: usize = 96;

const SENSOR_2_LOW: usize = SENSOR_2 + 1;

const SENSOR_2_CONFIGURATION: usize = SENSOR_2 + SENSOR_CONFIGURATION;

const SENSOR_2_HYSTERESIS: usize = SENSOR_2 + SENSOR_HYSTERESIS;

const SENSOR_2_HYSTERESIS_LOW: usize = SENSOR_2 + SENSOR_HYSTERESIS + 1;

const SENSOR_2_OVER: usize = SENSOR_2 + SENSOR_OVER;

const SENSOR_2_OVER_LOW: usize = SENSOR_2 + SENSOR_OVER + 1;

pub const SENSOR_3: usize = 104;

const SENSOR_3_LOW: usize = SENSOR_3 + 1;

const SENSOR_3_CONFIGURATION: usize = SENSOR_3 + SENSOR_CONFIGURATION;

const SENSOR_3_HYSTERESIS: usize = SENSOR_3 + SENSOR_HYSTERESIS;

const SENSOR_3_HYSTERESIS_LOW: usize = SENSOR_3 + SENSOR_HYSTERESIS + 1;

const SENSOR_3_OVER: usize = SENSOR_3 + SENSOR_OVER;

const SENSOR_3_OVER_LOW: usize = SENSOR_3 + SENSOR_OVER + 1;

// Sets of cells, a bit for each: from the right 20h-2Fh, 30h-3Fh, 40h-4Fh, 50h-5Fh; then, in the second word, 80h-8Fh,
// 90h-9Fh and eight for each of the sets of sensors 2 and 3.
const PRESENT: CellSet = CellSet {
    low: 0x0fff_fe7f_1e07_fb8f,
    high: 0x7f7f_0007_ffff,
};

const UNWRITABLE: CellSet = CellSet {
    low: 0x0000_7066_0000_038f,
    high: 0x0303_0000_0000,
};

const LOCKED: CellSet = CellSet {
    low: 0x0000_0000_0000_0000,
    high: 0x0000_0007_0000,
};

const KEPT_BY_RESET: CellSet = CellSet {
    low: 0x0000_0400_0000_038f,
    high: 0x0303_0007_0000,
};

const IDENTITY: CellSet = CellSet {
    low: 0x0000_7000_0000_0000,
    high: 0x0000_0000_0000,
};

// Whether a number is the cell of a register.
pub fn is_present(cell: usize) -> bool
    ensures { result ≡ present_at cell }
{
    PRESENT.contains(cell)
}

// The answer to a bus write to a cell.
pub fn answer_to_write(cell: usize) -> Result<(), Refusal>
    ensures { answer_of result ≡ write_answer cell }
{
    if !is_present(cell) {
        return Err(Refusal::Absent);
    }
    if LOCKED.contains(cell) {
        return Err(Refusal::OffsetLocked);
    }
    if UNWRITABLE.contains(cell) {
        return Err(Refusal::ReadOnly);
    }
    Ok(())
}

// The bits of a cell that a read shows; every other bit reads 0. No arm has two neighbours, which would make it a range
// and the match no table.
pub fn shown_bits(cell: usize) -> u8
    ensures { result ≡ shown_bits cell }
{
    match cell {
        VIN1 | VIN2 | SENSOR_1 | FAN_2_COUNT => 0b1111_1111,
        VIN3 | VCC | FAN_1_COUNT => 0b1111_1111,
        VIN1_HIGH | VIN3_HIGH | VIN2_HIGH | VCC_HIGH | SENSOR_1_OVER | FAN_1_LIMIT => 0b1111_1111,
        VIN1_LOW | VIN3_LOW | VIN2_LOW | VCC_LOW | SENSOR_1_HYSTERESIS | FAN_2_LIMIT => 0b1111_1111,
        CONFIGURATION => 0b0000_1011,
        INTERRUPT_STATUS_1 | SMI_MASK_1 | REAL_TIME_STATUS_1 => 0b1110_1111,
        INTERRUPT_STATUS_2 | REAL_TIME_STATUS_2 => 0b0000_0011,
        SMI_MASK_2 | SMI_CONTROL | SENSOR_TYPES => 0b0000_1111,
        FAN_DIVISOR => 0b0111_0111,
        BUS_ADDRESS | ACPI_STEP => 0b0111_1111,
        SENSOR_ADDRESSES | VENDOR_ID_HIGH | GPO_CONTROL => 0b1111_1111,
        VENDOR_ID_LOW | CHIP_ID => 0b1111_1111,
        OVT_CONTROL | FAN_CONFIGURATION => 0b0011_1111,
        MISC_CONTROL => 0b0011_0101,
        FAULT_CONTROL => 0b0000_0111,
        FAN_1_FAULT_HIGH | FAN_2_FAULT_HIGH | VBAT_FAULT_HIGH => 0b1111_1111,
        FAN_1_FAULT_LOW | FAN_2_FAULT_LOW | VBAT_FAULT_LOW => 0b1111_1111,
        FAN_1_PRE_SCALE | FAN_2_PRE_SCALE | FAN_1_TARGET | TOLERANCES => 0b1111_1111,
        FAN_1_DUTY | FAN_2_DUTY | FAN_2_TARGET => 0b1111_1111,
        FAN_1_STOP_DUTY | FAN_1_START_UP_DUTY | FAN_1_STOP_TIME | STEP_DOWN_TIME => 0b1111_1111,
        FAN_2_STOP_DUTY | FAN_2_START_UP_DUTY | FAN_2_STOP_TIME | STEP_UP_TIME => 0b1111_1111,
        OFFSET_1 | OFFSET_3 => 0b1111_1111,
        OFFSET_2 => 0b1111_1111,
        SENSOR_2 | SENSOR_2_HYSTERESIS | SENSOR_2_OVER => 0b1111_1111,
        SENSOR_2_LOW | SENSOR_2_HYSTERESIS_LOW | SENSOR_2_OVER_LOW => 0b1000_0000,
        SENSOR_3 | SENSOR_3_HYSTERESIS | SENSOR_3_OVER => 0b1111_1111,
        SENSOR_3_LOW | SENSOR_3_HYSTERESIS_LOW | SENSOR_3_OVER_LOW => 0b1000_0000,
        SENSOR_2_CONFIGURATION | SENSOR_3_CONFIGURATION => 0b0001_1001,
        _ => 0b0000_0000,
    }
}

// The bits that a bus write to a cell stores: none where it is refused, else those that a read shows.
pub fn stored_bits(cell: usize) -> u8
    ensures { result ≡ stored_bits cell }
{
    match answer_to_write(cell) {
        Ok(()) => shown_bits(cell),
        Err(_) => 0b0000_0000,
    }
}

// The power-on value of a cell; 0 where there is none.
pub fn power_on_byte(cell: usize) -> u8
    ensures { result ≡ power_on_at cell }
{
    match cell {
        CONFIGURATION | SENSOR_ADDRESSES | FAN_1_PRE_SCALE | FAN_2_PRE_SCALE => 0x01,
        FAN_DIVISOR | TOLERANCES => 0x11,
        BUS_ADDRESS => 0x2d,
        VENDOR_ID_LOW => 0xa3,
        VENDOR_ID_HIGH => 0x5c,
        CHIP_ID | SENSOR_2_OVER | SENSOR_3_OVER => 0x50,
        ACPI_STEP => 0x05,
        SMI_CONTROL => 0x04,
        FAN_1_FAULT_HIGH | FAN_2_FAULT_HIGH | VBAT_FAULT_HIGH => 0xff,
        FAN_1_DUTY | FAN_2_DUTY => 0xff,
        FAN_1_STOP_DUTY | FAN_1_START_UP_DUTY => 0x01,
        FAN_2_STOP_DUTY | FAN_2_START_UP_DUTY => 0x01,
        FAN_1_STOP_TIME => 0x3c,
        FAN_2_STOP_TIME => 0x3c,
        STEP_DOWN_TIME => 0x0a,
        STEP_UP_TIME => 0x0a,
        SENSOR_2_HYSTERESIS | SENSOR_3_HYSTERESIS => 0x4b,
        _ => 0x00,
    }
}

// Whether a reset keeps a cell.
pub fn is_kept_by_reset(cell: usize) -> bool
    ensures { result ≡ kept_at cell }
{
    KEPT_BY_RESET.contains(cell)
}

// Whether a cell is of an identity register, which shows its power-on byte whatever the cell holds.
pub fn is_identity(cell: usize) -> bool
    ensures { result ≡ identity_at cell }
{
    IDENTITY.contains(cell)
}
