// What is wrong with a record that can't be read.
ghost use Rattle.std.specs.Prelude.{◌≡◌};
ghost use Rattle.account.specs.Faults as faults;
ghost use Rattle.model.specs.Script as scripts;

use model::Refusal;

// How many bytes of the header or, where that is whole, of the body there are; the length that the record says.
#[derive(Clone, Copy, Debug, PartialEq, Eq)]
pub enum Kind {
    ShortHeader { bytes: u64 },
    ShortBody { bytes: u64 },
    WrongLength { length: u64 },
    UnknownTag { bytes: u64 },
}

// The tag is the record's first byte; `wanted` is how many bytes the body of this tag has. Both stand beside the kind since every fault
// has them, whatever the refusal.
#[derive(Clone, Copy, Debug, PartialEq, Eq)]
pub struct Fault {
    pub refusal: Refusal,
    pub kind: Kind,
    pub tag: u8,
    pub wanted: u64,
}

impl Fault {
    pub fn refusal(self) -> Refusal
        ensures { result ≡ faults.refusal_of self }
    {
        self.refusal
    }
}

// `rest` is the script from the record on, which is refused so; a byte that it lacks is read as 0.
#[tactic(auto, unfolding(crate::specs::Faults::fault_in))]
pub fn fault_in(refusal: Refusal, rest: &[u8]) -> Fault
    ensures { result ≡ faults.fault_in refusal rest.now }
{
    let byte_at = |i: usize| rest.get(i).copied().unwrap_or(0);
    let tag = byte_at(0);
    let wanted = records::body_length(tag) as u64;
    let left = rest.len() as u64;
    let bytes = if left < 3 { left } else { left - 3 };
    let kind = match refusal {
        Refusal::WrongLength => Kind::WrongLength {
            length: u64::from(u16::from_le_bytes([byte_at(1), byte_at(2)])),
        },
        Refusal::UnknownTag => Kind::UnknownTag { bytes },
        _ if left < 3 => Kind::ShortHeader { bytes },
        _ => Kind::ShortBody { bytes },
    };
    Fault {
        refusal,
        kind,
        tag,
        wanted,
    }
}
