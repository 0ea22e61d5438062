// An answer as one number of 64 bits.
ghost use Rattle.std.specs.Prelude.{◌≡◌};
ghost use Rattle.rissemat.specs.Packed.{answered};
ghost use Rattle.rissemat.specs.Inner.{Tells};

// The parts of an answer.
#[derive(Clone, Copy)]
pub struct Parts {
    // The refusal's number, 0 for none, or the number beside a text.
    pub number: u8,
    pub value: usize,
    // The kind of answer, where a call has several.
    pub kind: u8,
    pub second: usize,
}

impl Parts {
    // A value and nothing else.
    pub fn done(value: usize) -> Parts
        ensures { Tells result 0 value 0 0 }
    {
        Parts {
            number: 0,
            value,
            kind: 0,
            second: 0,
        }
    }

    // A refusal by its number, with what goes with it.
    pub fn refused(number: u8, value: usize) -> Parts
        ensures { Tells result number value 0 0 }
    {
        Parts {
            number,
            ..Parts::done(value)
        }
    }

    // An answer of a kind, with its value and its second value.
    pub fn of_kind(kind: u8, value: usize, second: usize) -> Parts
        ensures { Tells result 0 value kind second }
    {
        Parts {
            kind,
            second,
            ..Parts::done(value)
        }
    }
}

// From bit 0 up: the value, the refusal's number, the kind of answer, the second value.
pub fn packed(parts: Parts) -> u64
    ensures { result ≡ answered parts.number parts.value parts.kind parts.second }
{
    let low = (parts.value as u64).min(0xFFFF_FFFF);
    let high = (parts.second as u64).min(0xFFFF);
    high * 0x1_0000_0000_0000
        + u64::from(parts.kind) * 0x100_0000_0000
        + u64::from(parts.number) * 0x1_0000_0000
        + low
}
