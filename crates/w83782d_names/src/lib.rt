// The data sheet's names of the registers, put on a page. A table is one literal with a row for each index, a
// name and spaces up to the table's width. A check takes such a literal at once; a match
// with a put in each arm takes it nearly half a second for each of the 71 names.
#![tactic(auto)]

ghost use Rattle.std.specs.Prelude.{◌+◌, ◌*◌, ◌≤◌, ◌<◌, length};
ghost use Rattle.text.specs.Text.{ascii};
ghost use Rattle.text.specs.Pages.{Puts};
ghost use Rattle.w83782d_names.specs.Names.{find, reading_names, control_names, bank0_names};
ghost use Rattle.w83782d_names.specs.Names.{bank4_names, banked, name_of, Names};
ghost use Rattle.w83782d_names.specs.Rows.{row_of, trimmed, sensor_name};

use text::Page;

// 20h to 3Fh.
const READINGS: [u8; 32 * 24] = *b"\
    VCOREA                  \
    VINR0                   \
    +3.3V                   \
    +5V                     \
    +12V                    \
    -12V                    \
    -5V                     \
    temperature 1           \
    fan 1 count             \
    fan 2 count             \
    fan 3 count             \
    VCOREA high limit       \
    VCOREA low limit        \
    VINR0 high limit        \
    VINR0 low limit         \
    +3.3V high limit        \
    +3.3V low limit         \
    +5V high limit          \
    +5V low limit           \
    +12V high limit         \
    +12V low limit          \
    -12V high limit         \
    -12V low limit          \
    -5V high limit          \
    -5V low limit           \
    temperature 1 over limit\
    temperature 1 hysteresis\
    fan 1 count limit       \
    fan 2 count limit       \
    fan 3 count limit       \
    no register             \
    no register             ";

// 40h to 4Fh.
const CONTROLS: [u8; 16 * 27] = *b"\
    configuration              \
    interrupt status 1         \
    interrupt status 2         \
    SMI mask 1                 \
    SMI mask 2                 \
    no register                \
    chassis clear              \
    VID/fan divisor            \
    serial bus address         \
    device ID                  \
    temperature 2 and 3 address\
    pin control                \
    IRQ/OVT property           \
    fan and beep control       \
    bank select                \
    vendor ID                  ";

// 50h to 5Fh of bank 0.
const BANK_0: [u8; 16 * 25] = *b"\
    no register              \
    no register              \
    no register              \
    no register              \
    no register              \
    no register              \
    beep control 1           \
    beep control 2           \
    chip ID                  \
    diode selection          \
    PWM 2 duty               \
    PWM 1 duty               \
    PWM clock                \
    VBAT monitor, fan divisor\
    PWM 3 duty               \
    PWM 4 duty               ";

// 50h to 56h of banks 1 and 2, behind the sensor's name.
const SENSOR: [u8; 7 * 20] = *b"\
    high byte           \
    low byte            \
    configuration       \
    hysteresis high byte\
    hysteresis low byte \
    over limit high byte\
    over limit low byte ";

// 50h to 5Fh of bank 4.
const BANK_4: [u8; 16 * 18] = *b"\
    no register       \
    no register       \
    no register       \
    no register       \
    no register       \
    no register       \
    no register       \
    no register       \
    no register       \
    real time status 1\
    real time status 2\
    no register       \
    no register       \
    no register       \
    no register       \
    no register       ";

// A row of a table, without the spaces behind its name.
fn put_row(page: &mut Page, table: &[u8], width: u8, row: u8)
    requires { (row + 1) * width ≤ length table.now }
    ensures { Puts page.old (trimmed (row_of table.now width row)) page.new }
{
    let from = row as usize * width as usize;
    let mut name = &table[from..from + width as usize];
    while let Some((b' ', rest)) = name.split_last() {
        name = rest;
    }
    page.put_bytes(name);
}

fn put_reading(page: &mut Page, index: u8)
    requires { (0x20 ≤ index) × (index < 0x40) }
    ensures { Puts page.old (ascii (find reading_names index)) page.new }
{
    put_row(page, &READINGS, 24, index - 0x20);
}

fn put_control(page: &mut Page, index: u8)
    requires { (0x40 ≤ index) × (index < 0x50) }
    ensures { Puts page.old (ascii (find control_names index)) page.new }
{
    put_row(page, &CONTROLS, 27, index - 0x40);
}

fn put_bank_0(page: &mut Page, index: u8)
    requires { (0x50 ≤ index) × (index < 0x60) }
    ensures { Puts page.old (ascii (find bank0_names index)) page.new }
{
    put_row(page, &BANK_0, 25, index - 0x50);
}

// A register of the bank of sensor 2 or 3, behind the sensor's name.
fn put_sensor(page: &mut Page, sensor: &[u8], index: u8)
    requires { (0x50 ≤ index) × (index < 0x60) }
    ensures { Puts page.old (sensor_name sensor.now index) page.new }
{
    if index > 0x56 {
        page.put_bytes(b"no register");
        return;
    }
    page.put_bytes(sensor);
    put_row(page, &SENSOR, 20, index - 0x50);
}

fn put_bank_4(page: &mut Page, index: u8)
    requires { (0x50 ≤ index) × (index < 0x60) }
    ensures { Puts page.old (ascii (find bank4_names index)) page.new }
{
    put_row(page, &BANK_4, 18, index - 0x50);
}

// 50h to 5Fh, by the bank.
fn put_banked(page: &mut Page, bank: u8, index: u8)
    requires { (0x50 ≤ index) × (index < 0x60) }
    ensures { Puts page.old (ascii (banked bank index)) page.new }
{
    match bank {
        0 => put_bank_0(page, index),
        1 => put_sensor(page, b"temperature 2 ", index),
        2 => put_sensor(page, b"temperature 3 ", index),
        4 => put_bank_4(page, index),
        _ => page.put_bytes(b"no such bank"),
    }
}

// The name of the register that an index reaches while a bank is selected; "no register" or "no such bank" where it
// reaches none.
pub fn put_name(page: &mut Page, bank: u8, index: u8)
    ensures { (Puts page.old (name_of bank index) page.new) × Names }
{
    match index {
        0x00..=0x1f => page.put_bytes(b"no register"),
        0x20..=0x3f => put_reading(page, index),
        0x40..=0x4f => put_control(page, index),
        0x50..=0x5f => put_banked(page, bank, index),
        0x60..=0x7f => put_reading(page, index - 0x40),
        _ => page.put_bytes(b"no register"),
    }
}
