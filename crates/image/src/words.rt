// Answers and values as one word each, for C: an answer number in the high bits, what it carries below.
ghost use Rattle.std.specs.Prelude.{◌≡◌};
ghost use Rattle.image.specs.Image.{read_word};
ghost use Rattle.image.specs.Words.{answer_word, wide_word, plan_word, speed_word, SpeedWords};

use answers::Refusal;
use fan::{Plan, Speed};

// A top byte's 1 in a speed's word, and what the top byte adds to the answer when refused.
pub const TOP_BYTE: u32 = 0x100_0000;

pub const REFUSED: u32 = 0x80;

// An answer's number and a byte as one word: answer * 256 + byte.
pub fn word(answer: u8, byte: u8) -> u16
    ensures { result ≡ read_word answer byte }
{
    (answer as u16) * 256 + (byte as u16)
}

// The word of an answer that carries a byte, which is 0 when refused.
pub fn answer_word(answer: Result<u8, Refusal>) -> u16
    ensures { result ≡ answer_word answer }
{
    match answer {
        Ok(byte) => word(0, byte),
        Err(refusal) => word(refusal.number(), 0),
    }
}

// An answer and 16 bits as one word: answer * 65536 + the bits, which are 0 when refused.
pub fn wide_word(answer: Result<u16, Refusal>) -> u32
    ensures { result ≡ wide_word answer }
{
    match answer {
        Ok(value) => value as u32,
        Err(refusal) => (refusal.number() as u32) * 65536,
    }
}

// A plan: answer * 65536 + divisor * 256 + limit.
pub fn planned(plan: Option<Plan>) -> u32
    ensures { result ≡ plan_word plan }
{
    let carried = plan.map(|p| (p.divisor.value() as u16) * 256 + (p.limit as u16));
    wide_word(carried.ok_or(Refusal::BadSpeed))
}

// A speed: the top byte is 0 for a number, 1 too fast, 2 too slow, 80h + answer when
// refused; the number, tenths of rpm, is in the low 24 bits.
pub fn speed_word(speed: Speed) -> u32
    ensures equation { result ≡ speed_word speed }
    ensures claims { SpeedWords }
{
    match speed {
        Speed::Tenths(tenths) => tenths,
        Speed::TooFast => TOP_BYTE,
        Speed::TooSlow => 2 * TOP_BYTE,
        Speed::Refused(refusal) => (REFUSED + refusal.number() as u32) * TOP_BYTE,
    }
}
