// Two status bytes and their masks: whether a bit is set that its mask leaves, how many bits
// are set, bits of both, such as those that an event latches, and conditions that latch on crossings.
// Nothing here is of one chip.
#![tactic(auto)]

ghost use Rattle.std.specs.Prelude.{◌≡◌, ◌≤◌};
ghost use Rattle.status.specs.Status.{any_unmasked, alarm_count, crossed_of};
ghost use Rattle.status.specs.Claims.{CountsSetBits, Crosses};

// Bits of two status bytes.
#[derive(Clone, Copy)]
pub struct StatusBits {
    pub first: u8,
    pub second: u8,
}

// Whether one of two status bytes has a bit set that its mask leaves.
pub fn any_unmasked(first: u8, first_mask: u8, second: u8, second_mask: u8) -> bool
    ensures { result ≡ any_unmasked first first_mask second second_mask }
{
    ((first & !first_mask) | (second & !second_mask)) != 0
}

// The number of standing alarms: the set bits of two status bytes.
pub fn alarm_count(first: u8, second: u8) -> u32
    ensures count { result ≡ alarm_count first second }
    ensures few { result ≤ 16 }
    ensures claims { CountsSetBits }
{
    first.count_ones() + second.count_ones()
}

// What a byte of conditions latches where some latch on crossings: the conditions of `crossing` where they differ from the
// byte before, every other where it is true.
pub fn crossed(before: u8, crossing: u8, now: u8) -> u8
    ensures equation { result ≡ crossed_of before crossing now }
    ensures claims { Crosses }
{
    now ^ (before & crossing)
}
