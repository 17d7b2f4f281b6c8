// What a refusal tells, and how a layer passes one on.
ghost use Rattle.std.specs.Prelude.{◌≡◌};
ghost use Rattle.calls.specs.Refusal.{notice, own as own_of, under as below, deepened};

use crate::refusal::{Call, Origin, Refusal};

impl Origin {
    // A stream's own refusal of a call: at its position, with no layer above.
    pub fn own(call: Call, position: u64) -> Origin
        ensures { result ≡ own_of call position }
    {
        Origin {
            call,
            position,
            layers: 0,
        }
    }

    // One layer more lies above the stream that refused.
    fn under(self) -> Origin
        ensures { result ≡ below self }
    {
        Origin {
            layers: self.layers.wrapping_add(1),
            ..self
        }
    }
}

impl Refusal {
    // Its number, 1 to 12. It tells a part of the refusal, as `code` does: so it is no `From`, which would turn the whole of it.
    pub fn number(self) -> u8
        ensures { result ≡ (notice self).number }
    {
        match self {
            Refusal::BufferTooSmall => 1,
            Refusal::BufferTooLarge => 2,
            Refusal::HeaderTooLong => 3,
            Refusal::BadReadSize => 4,
            Refusal::ShortBuffer => 5,
            Refusal::BadWhence => 6,
            Refusal::NotNow(_) => 7,
            Refusal::BadCount(_) => 8,
            Refusal::BadPosition(_) => 9,
            Refusal::Fault(_, _) => 10,
            Refusal::OutOfRange(_) => 11,
            Refusal::PastLimit(_) => 12,
        }
    }

    // The stream that said so: from 7 on.
    pub fn origin(self) -> Option<Origin>
        ensures { result ≡ (notice self).from }
    {
        match self {
            Refusal::NotNow(o) | Refusal::BadCount(o) | Refusal::BadPosition(o) => Some(o),
            Refusal::Fault(o, _) | Refusal::OutOfRange(o) | Refusal::PastLimit(o) => Some(o),
            _ => None,
        }
    }

    // The code of a fault.
    pub fn code(self) -> Option<u32>
        ensures { result ≡ (notice self).code }
    {
        match self {
            Refusal::Fault(_, code) => Some(code),
            _ => None,
        }
    }

    // The refusal as the next layer passes it on.
    pub fn deeper(self) -> Refusal
        ensures { result ≡ deepened self }
    {
        match self {
            Refusal::NotNow(o) => Refusal::NotNow(o.under()),
            Refusal::BadCount(o) => Refusal::BadCount(o.under()),
            Refusal::BadPosition(o) => Refusal::BadPosition(o.under()),
            Refusal::Fault(o, code) => Refusal::Fault(o.under(), code),
            Refusal::OutOfRange(o) => Refusal::OutOfRange(o.under()),
            Refusal::PastLimit(o) => Refusal::PastLimit(o.under()),
            e => e,
        }
    }
}
