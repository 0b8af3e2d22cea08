// What the registers do as a whole: the cell that an access reaches, power-on and reset
// of every cell, commands, and the byte that a read shows.
#![tactic(auto)]

ghost use Rattle.std.specs.Prelude.{◌≡◌, ◌&&◌, ◌≤◌, eqb};
ghost use Rattle.bits.specs.Bits.{is_on};
ghost use Rattle.w83782d_map.specs.Cells.{bank_cell};
ghost use Rattle.w83782d_registers.specs.Registers.{cell_of, reach_of, is_interrupt};
ghost use Rattle.w83782d_registers.specs.Registers.{with_chassis, vendor_byte, shown_of};
ghost use Rattle.w83782d_registers.specs.Parts.{cell_or_none, restored_byte, restored_in};

use bits::{Bit, is_on};
use w83782d_map::{
    BANK_SELECT, CELLS, CHASSIS_CLEAR, CHIP_ID, CONFIGURATION, DEVICE_ID, INTERRUPT_STATUS_2,
    REAL_TIME_STATUS_2, SENSOR_2, SENSOR_3, SENSOR_CONFIGURATION, VENDOR_ID, VID_FAN_DIVISOR,
    is_kept_by_reset, power_on_byte,
};

// ---- The cell that an access reaches

// The cell of an index in a bank. Only 50h to 5Fh look at the bank; 60h to 7Fh are 20h to 3Fh.
#[tactic(auto, unfolding(crate::specs::Registers::cell_of))]
fn cell_of(index: u8, bank: u8) -> Option<usize>
    ensures { result ≡ cell_or_none (cell_of bank index) }
{
    let i = usize::from(index);
    if i < 0x20 || 0x7f < i {
        return None;
    }
    match i {
        0x60.. => Some(i - 0x60),
        0x50.. => match bank {
            0 => Some(i - 0x20),
            1 => Some(i - 0x10),
            2 => Some(i),
            4 => Some(i + 0x10),
            _ => None,
        },
        _ => Some(i - 0x20),
    }
}

// The cell that an access at an index reaches.
pub fn reach(s: &[u8], index: u8) -> Option<usize>
    ensures { result ≡ cell_or_none (reach_of s.now index) }
{
    cell_of(index, bits::cell(s, BANK_SELECT) & 0b0000_0111)
}

// ---- Power-on and reset

// What a cell gets: its power-on value, unless it is to be kept and a reset keeps it.
fn restored(cell: usize, old: u8, keep: bool) -> u8
    ensures { result ≡ restored_byte keep cell old }
{
    if keep && is_kept_by_reset(cell) {
        old
    } else {
        power_on_byte(cell)
    }
}

// Power-on of every cell, or a reset, which keeps some. A slice that is not of 112 cells stays.
pub fn restore(s: &mut [u8], keep: bool)
    ensures { s.new ≡ restored_in keep s.old }
{
    if s.len() != CELLS {
        return;
    }
    for cell in 0..CELLS {
        s[cell] = restored(cell, s[cell], keep);
    }
}

// ---- Commands

// Whether a write is the command of a cell: bit 7 of 40h resets, of 46h clears the chassis latch.
pub fn is_command(of: usize, cell: usize, value: u8) -> bool
    ensures { result ≡ (eqb cell of && is_on value 7) }
{
    cell == of && is_on(value, Bit::B7)
}

// ---- Sensors 2 and 3

// 50h of the bank of sensor 2; for any other number that of sensor 3.
pub fn bank_cell(sensor: usize) -> usize
    ensures { (result ≡ bank_cell sensor) × (result ≤ 80) }
{
    if sensor == 2 { SENSOR_2 } else { SENSOR_3 }
}

// Whether the OVT output of sensor 2 or 3 is in interrupt mode, by bit 1 of its own 52h.
#[tactic(auto, unfolding(crate::specs::Registers::is_interrupt))]
pub fn is_interrupt(s: &[u8], sensor: usize) -> bool
    ensures { result ≡ is_interrupt s.now sensor }
{
    let configuration = bits::cell(s, bank_cell(sensor) + SENSOR_CONFIGURATION);
    is_on(configuration, Bit::B1)
}

// ---- What a read shows

// A byte of 42h or 5Ah as a read shows it: bits 5, 3-0 of the cell, and the latch as bit 4.
pub fn with_chassis(byte: u8, chassis: bool) -> u8
    ensures { result ≡ with_chassis byte chassis }
{
    (byte & 0b0010_1111) | if chassis { 0b0001_0000 } else { 0 }
}

fn vendor_byte(select: u8) -> u8
    ensures { result ≡ vendor_byte select }
{
    if is_on(select, Bit::B7) { 0x5c } else { 0xa3 }
}

// The byte that a read of a cell shows.
#[tactic(auto, unfolding(crate::specs::Registers::shown_of))]
pub fn shown(s: &[u8], chassis: bool, cell: usize) -> u8
    ensures { result ≡ shown_of s.now chassis cell }
{
    let byte = bits::cell(s, cell);
    match cell {
        CONFIGURATION => byte & 0b0111_1111,
        INTERRUPT_STATUS_2 | REAL_TIME_STATUS_2 => with_chassis(byte, chassis),
        CHASSIS_CLEAR => 0x00,
        VID_FAN_DIVISOR => byte & 0b1111_0000,
        DEVICE_ID => 0x02,
        VENDOR_ID => vendor_byte(bits::cell(s, BANK_SELECT)),
        CHIP_ID => 0x30,
        _ => byte,
    }
}
