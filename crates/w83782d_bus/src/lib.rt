// The register side of the W83782D, in place on the registers' slice with the small latches by value:
// power-on, bus write, look, bus read and reset.
#![tactic(auto)]

ghost use Rattle.std.specs.Prelude.{◌≡◌, Ok, ltb};
ghost use Rattle.std.specs.Result.{result_unwrap_or};
ghost use Rattle.answers.specs.Refusals.{answer_of};
ghost use Rattle.answers.specs.Answers.{wrong_length};
ghost use Rattle.bits.specs.Bits.{choose};
ghost use Rattle.w83782d_map.specs.Map.{cells, fits, present_at};
ghost use Rattle.w83782d_map.specs.Access.{write_answer};
ghost use Rattle.w83782d_registers.specs.Registers.{reach_of};
ghost use Rattle.w83782d_latches.specs.Effects.{power_on_latches};
ghost use Rattle.w83782d_bus.specs.Bus.{state, power_on, written_in, write_of, written, read_in};
ghost use Rattle.w83782d_bus.specs.Bus.{read_of, sized, sized_read, looked_in, looked_as};
ghost use Rattle.w83782d_bus.specs.Bus.{outcome_in, read_outcome_in};
ghost use Rattle.w83782d_bus.specs.Parts.{if_whole, cell_where};

use answers::Refusal;
use bits::{put, store};
use w83782d_latches::{Latches, read_latches, write_latches};
use w83782d_map::{
    CELLS, CONFIGURATION, INTERRUPT_STATUS_1, INTERRUPT_STATUS_2, answer_to_write, is_present,
    stored_bits,
};
use w83782d_registers::{is_command, reach, restore, shown};

// What a call that may change the latches gives: the latches after it, and its answer.
#[derive(Clone, Copy)]
pub struct Outcome<T> {
    pub latches: Latches,
    pub answer: Result<T, Refusal>,
}

// ---- The cell that a call is about

// A slice that is not of 112 cells is refused as 8.
fn whole(s: &[u8]) -> Result<(), Refusal>
    ensures { result ≡ if_whole s.now (Ok tt) }
{
    if s.len() == CELLS {
        Ok(())
    } else {
        Err(Refusal::WrongLength)
    }
}

// The cell of an index.
fn reached(s: &[u8], index: u8) -> Result<usize, Refusal>
    ensures { result ≡ if_whole s.now (cell_where (ltb (reach_of s.now index) cells) (reach_of s.now index)) }
{
    whole(s)?;
    reach(s, index).ok_or(Refusal::Absent)
}

// The cell of an index, where a write there is accepted.
fn cell_to_write(s: &[u8], index: u8) -> Result<usize, Refusal>
    ensures answer { answer_of result ≡ choose (fits s.now) (write_answer (reach_of s.now index)) wrong_length }
    ensures cell { result_unwrap_or result (reach_of s.now index) ≡ reach_of s.now index }
{
    let cell = reached(s, index)?;
    answer_to_write(cell)?;
    Ok(cell)
}

// The cell of an index, where it is a register's.
fn cell_to_read(s: &[u8], index: u8) -> Result<usize, Refusal>
    ensures { result ≡ if_whole s.now (cell_where (present_at (reach_of s.now index)) (reach_of s.now index)) }
{
    let cell = reached(s, index)?;
    if is_present(cell) {
        Ok(cell)
    } else {
        Err(Refusal::Absent)
    }
}

// ---- Power-on and reset

// Every cell at its power-on value. A slice that is not of 112 cells is refused as 8 and stays.
pub fn power_on_in(s: &mut [u8]) -> Outcome<()>
    ensures { outcome_in s.new result ≡ sized s.old power_on_latches (written power_on 0) }
{
    let answer = whole(s);
    restore(s, false);
    Outcome {
        latches: Latches::power_on(),
        answer,
    }
}

// ---- Bus write

// The registers after a write that is accepted. A slice that is not of 112 cells stays.
pub fn write_registers(s: &mut [u8], cell: usize, value: u8)
    ensures { s.new ≡ written_in s.old cell value }
{
    if s.len() != CELLS {
        return;
    }
    if is_command(CONFIGURATION, cell, value) {
        restore(s, true);
    } else {
        store(s, cell, stored_bits(cell), value);
    }
}

// A bus write in place. Refused as 1 or 2 it leaves registers and latches; a slice that
// is not of 112 cells is refused as 8.
pub fn write_in(s: &mut [u8], l: Latches, index: u8, value: u8) -> Outcome<()>
    ensures { outcome_in s.new result
        ≡ sized s.old l (write_of (state s.old l) index value) }
{
    match cell_to_write(s, index) {
        Ok(cell) => {
            write_registers(s, cell, value);
            Outcome {
                latches: write_latches(l, cell, value),
                answer: Ok(()),
            }
        }
        Err(refusal) => Outcome {
            latches: l,
            answer: Err(refusal),
        },
    }
}

// ---- Look

// The byte that a read shows, without its effect. Refused as 1 where no register is; a slice that is not of 112 cells is
// refused as 8.
pub fn look_in(s: &[u8], chassis: bool, index: u8) -> Result<u8, Refusal>
    ensures { looked_as result ≡ looked_in s.now chassis index }
{
    let cell = cell_to_read(s, index)?;
    Ok(shown(s, chassis, cell))
}

// ---- Bus read: a look and an effect

// The registers after a read: one of 41h or 42h clears it; the chassis bit is the latch and stays.
// A slice that is not of 112 cells stays.
#[tactic(auto, unfolding(crate::specs::Bus::read_registers))]
pub fn read_registers(s: &mut [u8], cell: usize)
    ensures { s.new ≡ read_in s.old cell }
{
    if s.len() == CELLS && (cell == INTERRUPT_STATUS_1 || cell == INTERRUPT_STATUS_2) {
        put(s, cell, 0);
    }
}

// A bus read in place. Refused as 1 it leaves registers and latches; a slice that is not of 112 cells is refused as 8.
pub fn read_in(s: &mut [u8], l: Latches, index: u8) -> Outcome<u8>
    ensures { read_outcome_in s.new result
        ≡ sized_read s.old l (read_of (state s.old l) index) }
{
    match cell_to_read(s, index) {
        Ok(cell) => {
            let byte = shown(s, l.chassis, cell);
            let latches = read_latches(s, l, cell);
            read_registers(s, cell);
            Outcome {
                latches,
                answer: Ok(byte),
            }
        }
        Err(refusal) => Outcome {
            latches: l,
            answer: Err(refusal),
        },
    }
}
