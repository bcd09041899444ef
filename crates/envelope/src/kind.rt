// The kinds of records: the byte that each begins with, and the length of its body.
ghost use Rattle.std.specs.Prelude.{◌≡◌};
ghost use Rattle.std.specs.Option.{ok_or};
ghost use Rattle.fault.specs.declared.Refusal.TheVariants.{UnknownKind};
ghost use Rattle.envelope.specs.Kinds.{body_length, kind_byte, kind_of};

use fault::Refusal;

// The parameter set of a key or a signature.
#[derive(Clone, Copy, Debug, PartialEq, Eq)]
pub enum Set {
    S16,
    Rehearsal,
}

// What a record holds.
#[derive(Clone, Copy, Debug, PartialEq, Eq)]
pub enum Kind {
    Key(Set),
    Signature(Set),
    Day,
}

// The byte that a record of a kind begins with.
impl From<Kind> for u8 {
    ghost from_gives = { λ k b. b ≡ kind_byte k };

    fn from(kind: Kind) -> u8 {
        match kind {
            Kind::Key(Set::S16) => 1,
            Kind::Signature(Set::S16) => 2,
            Kind::Key(Set::Rehearsal) => 3,
            Kind::Signature(Set::Rehearsal) => 4,
            Kind::Day => 5,
        }
    }
}

// The kind that begins with a byte.
impl TryFrom<u8> for Kind {
    type Error = Refusal;

    ghost try_from_gives = { λ b r. r ≡ ok_or (kind_of b) UnknownKind };

    fn try_from(byte: u8) -> Result<Kind, Refusal> {
        match byte {
            1 => Ok(Kind::Key(Set::S16)),
            2 => Ok(Kind::Signature(Set::S16)),
            3 => Ok(Kind::Key(Set::Rehearsal)),
            4 => Ok(Kind::Signature(Set::Rehearsal)),
            5 => Ok(Kind::Day),
            _ => Err(Refusal::UnknownKind),
        }
    }
}

impl Kind {
    // The length of the body that follows.
    pub fn body_length(self) -> usize
        ensures { result ≡ body_length self }
    {
        match self {
            Kind::Key(Set::S16) => 32,
            Kind::Signature(Set::S16) => 5904,
            Kind::Key(Set::Rehearsal) => 17,
            Kind::Signature(Set::Rehearsal) => 648,
            Kind::Day => 4,
        }
    }
}
