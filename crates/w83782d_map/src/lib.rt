// The register map of the W83782D: named cells, sets of cells and values by cell, and what the rows say of a cell:
// whether it is a register, the answer to a write, the bits it stores, its power-on value, whether a reset keeps it.
#![tactic(auto)]

ghost use Rattle.std.specs.Prelude.{◌≡◌};
ghost use Rattle.answers.specs.Refusals.{answer_of};
ghost use Rattle.w83782d_map.specs.Map.{present_at, power_on_at, kept_at};
ghost use Rattle.w83782d_map.specs.Access.{write_answer, stored_bits};

use answers::Refusal;
use bits::CellSet;

// ---- Cells: bank 0 20h-5Fh, then banks 1, 2 and 4 from 50h up

pub const CELLS: usize = 112;

// The code of rail i is at VCOREA + i, its limits at VCOREA_HIGH + 2i and VCOREA_LOW + 2i; the count of fan f is at
// FAN_COUNTS + f, its limit at FAN_LIMITS + f.
pub const VCOREA: usize = 0x20 - 0x20;

pub const VINR0: usize = 0x21 - 0x20;

pub const PLUS_3_3: usize = 0x22 - 0x20;

pub const PLUS_5: usize = 0x23 - 0x20;

pub const PLUS_12: usize = 0x24 - 0x20;

pub const MINUS_12: usize = 0x25 - 0x20;

pub const MINUS_5: usize = 0x26 - 0x20;

pub const SENSOR_1: usize = 0x27 - 0x20;

pub const FAN_COUNTS: usize = 0x27 - 0x20;

pub const FAN_LIMITS: usize = 0x3a - 0x20;

pub const VCOREA_HIGH: usize = 0x2b - 0x20;

pub const VCOREA_LOW: usize = 0x2c - 0x20;

const VINR0_HIGH: usize = 0x2d - 0x20;

const VINR0_LOW: usize = 0x2e - 0x20;

const PLUS_3_3_HIGH: usize = 0x2f - 0x20;

const PLUS_3_3_LOW: usize = 0x30 - 0x20;

const PLUS_5_HIGH: usize = 0x31 - 0x20;

const PLUS_5_LOW: usize = 0x32 - 0x20;

const PLUS_12_HIGH: usize = 0x33 - 0x20;

const PLUS_12_LOW: usize = 0x34 - 0x20;

const MINUS_12_HIGH: usize = 0x35 - 0x20;

const MINUS_12_LOW: usize = 0x36 - 0x20;

const MINUS_5_HIGH: usize = 0x37 - 0x20;

const MINUS_5_LOW: usize = 0x38 - 0x20;

pub const SENSOR_1_OVER: usize = 0x39 - 0x20;

pub const SENSOR_1_HYSTERESIS: usize = 0x3a - 0x20;

const FAN_1_LIMIT: usize = 0x3b - 0x20;

const FAN_2_LIMIT: usize = 0x3c - 0x20;

const FAN_3_LIMIT: usize = 0x3d - 0x20;

pub const CONFIGURATION: usize = 0x40 - 0x20;

pub const INTERRUPT_STATUS_1: usize = 0x41 - 0x20;

pub const INTERRUPT_STATUS_2: usize = 0x42 - 0x20;

pub const SMI_MASK_1: usize = 0x43 - 0x20;

pub const SMI_MASK_2: usize = 0x44 - 0x20;

pub const CHASSIS_CLEAR: usize = 0x46 - 0x20;

pub const VID_FAN_DIVISOR: usize = 0x47 - 0x20;

const BUS_ADDRESS: usize = 0x48 - 0x20;

pub const DEVICE_ID: usize = 0x49 - 0x20;

const REMOTE_ADDRESS: usize = 0x4a - 0x20;

pub const PIN_CONTROL: usize = 0x4b - 0x20;

pub const OVT_PROPERTY: usize = 0x4c - 0x20;

const GPO_CONTROL: usize = 0x4d - 0x20;

pub const BANK_SELECT: usize = 0x4e - 0x20;

pub const VENDOR_ID: usize = 0x4f - 0x20;

const BEEP_CONTROL_1: usize = 0x56 - 0x20;

const BEEP_CONTROL_2: usize = 0x57 - 0x20;

pub const CHIP_ID: usize = 0x58 - 0x20;

const DIODE_SELECTION: usize = 0x59 - 0x20;

pub const PWM_DUTY_2: usize = 0x5a - 0x20;

pub const PWM_DUTY_1: usize = 0x5b - 0x20;

const PWM_CLOCK: usize = 0x5c - 0x20;

pub const VBAT_FAN_DIVISOR: usize = 0x5d - 0x20;

pub const PWM_DUTY_3: usize = 0x5e - 0x20;

pub const PWM_DUTY_4: usize = 0x5f - 0x20;

// 50h of the bank of sensor 2 or 3; on from there its 52h, 53h and 55h, high byte before low.
pub const SENSOR_CONFIGURATION: usize = 2;

pub const SENSOR_HYSTERESIS: usize = 3;

pub const SENSOR_OVER: usize = 5;

pub const SENSOR_2: usize = 64;

const SENSOR_2_CONFIGURATION: usize = SENSOR_2 + SENSOR_CONFIGURATION;

const SENSOR_2_HYSTERESIS: usize = SENSOR_2 + SENSOR_HYSTERESIS;

const SENSOR_2_HYSTERESIS_LOW: usize = SENSOR_2 + SENSOR_HYSTERESIS + 1;

const SENSOR_2_OVER: usize = SENSOR_2 + SENSOR_OVER;

const SENSOR_2_OVER_LOW: usize = SENSOR_2 + SENSOR_OVER + 1;

pub const SENSOR_3: usize = 80;

const SENSOR_3_CONFIGURATION: usize = SENSOR_3 + SENSOR_CONFIGURATION;

const SENSOR_3_HYSTERESIS: usize = SENSOR_3 + SENSOR_HYSTERESIS;

const SENSOR_3_HYSTERESIS_LOW: usize = SENSOR_3 + SENSOR_HYSTERESIS + 1;

const SENSOR_3_OVER: usize = SENSOR_3 + SENSOR_OVER;

const SENSOR_3_OVER_LOW: usize = SENSOR_3 + SENSOR_OVER + 1;

const BANK_4: usize = 96;

pub const REAL_TIME_STATUS_1: usize = BANK_4 + 9;

pub const REAL_TIME_STATUS_2: usize = BANK_4 + 0xa;

// Sets of cells, a bit for each: from the right 20h-2Fh, 30h-3Fh, 40h-4Fh, 50h-5Fh of bank 0; then, in the
// second word, 50h-5Fh of banks 1, 2 and 4.
const PRESENT: CellSet = CellSet {
    low: 0xffc0_ffdf_3fff_ffff,
    high: 0x0600_007f_007f,
};

const UNWRITABLE: CellSet = CellSet {
    low: 0x0100_8206_0000_07ff,
    high: 0x0600_0003_0003,
};

const KEPT_BY_RESET: CellSet = CellSet {
    low: 0x0000_0100_0000_07ff,
    high: 0x0000_0003_0003,
};

// Whether a number is the cell of a register.
pub fn is_present(cell: usize) -> bool
    ensures { result ≡ present_at cell }
{
    PRESENT.contains(cell)
}

// The answer to a write to a cell.
pub fn answer_to_write(cell: usize) -> Result<(), Refusal>
    ensures { answer_of result ≡ write_answer cell }
{
    if !is_present(cell) {
        return Err(Refusal::Absent);
    }
    if UNWRITABLE.contains(cell) {
        return Err(Refusal::ReadOnly);
    }
    Ok(())
}

// The bits that a write to a cell stores: none where it is refused, and none of 46h, which is a command. No arm has two
// neighbours, which would make it a range and the match no table.
pub fn stored_bits(cell: usize) -> u8
    ensures { result ≡ stored_bits cell }
{
    match cell {
        VCOREA_HIGH | VINR0_HIGH | PLUS_3_3_HIGH | PLUS_5_HIGH => 0b1111_1111,
        VCOREA_LOW | VINR0_LOW | PLUS_3_3_LOW | PLUS_5_LOW => 0b1111_1111,
        PLUS_12_HIGH | MINUS_12_HIGH | MINUS_5_HIGH => 0b1111_1111,
        PLUS_12_LOW | MINUS_12_LOW | MINUS_5_LOW => 0b1111_1111,
        SENSOR_1_OVER | FAN_1_LIMIT | FAN_3_LIMIT => 0b1111_1111,
        SENSOR_1_HYSTERESIS | FAN_2_LIMIT => 0b1111_1111,
        CONFIGURATION => 0b0100_1011,
        SMI_MASK_1 | REMOTE_ADDRESS | GPO_CONTROL | BEEP_CONTROL_1 => 0b1111_1111,
        SMI_MASK_2 => 0b0011_1111,
        VID_FAN_DIVISOR => 0b1111_0000,
        BUS_ADDRESS | PWM_CLOCK => 0b0111_1111,
        PIN_CONTROL => 0b1111_1100,
        OVT_PROPERTY => 0b0101_1100,
        BANK_SELECT => 0b1000_0111,
        BEEP_CONTROL_2 => 0b1011_1111,
        DIODE_SELECTION => 0b0111_0000,
        PWM_DUTY_1 | PWM_DUTY_3 => 0b1111_1111,
        PWM_DUTY_2 | PWM_DUTY_4 => 0b1111_1111,
        VBAT_FAN_DIVISOR => 0b1110_1111,
        SENSOR_2_CONFIGURATION | SENSOR_3_CONFIGURATION => 0b0001_1011,
        SENSOR_2_HYSTERESIS | SENSOR_2_OVER => 0b1111_1111,
        SENSOR_3_HYSTERESIS | SENSOR_3_OVER => 0b1111_1111,
        SENSOR_2_HYSTERESIS_LOW | SENSOR_2_OVER_LOW => 0b1000_0000,
        SENSOR_3_HYSTERESIS_LOW | SENSOR_3_OVER_LOW => 0b1000_0000,
        _ => 0b0000_0000,
    }
}

// The power-on value of a cell; 0 where there is none.
pub fn power_on_byte(cell: usize) -> u8
    ensures { result ≡ power_on_at cell }
{
    match cell {
        CONFIGURATION | REMOTE_ADDRESS | OVT_PROPERTY => 0x01,
        VID_FAN_DIVISOR => 0x50,
        BUS_ADDRESS => 0x2d,
        DEVICE_ID => 0x02,
        PIN_CONTROL => 0x44,
        GPO_CONTROL => 0x15,
        BANK_SELECT | BEEP_CONTROL_2 => 0x80,
        CHIP_ID => 0x30,
        DIODE_SELECTION => 0x70,
        PWM_DUTY_1 | PWM_DUTY_3 => 0xff,
        PWM_DUTY_2 | PWM_DUTY_4 => 0xff,
        PWM_CLOCK => 0x11,
        SENSOR_2_HYSTERESIS | SENSOR_3_HYSTERESIS => 0x4b,
        SENSOR_2_OVER | SENSOR_3_OVER => 0x50,
        _ => 0x00,
    }
}

// Whether a reset keeps a cell.
pub fn is_kept_by_reset(cell: usize) -> bool
    ensures { result ≡ kept_at cell }
{
    KEPT_BY_RESET.contains(cell)
}
