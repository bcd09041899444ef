// What went wrong, where it was found, and at which byte.
#![tactic(auto)]

ghost use Rattle.std.specs.Prelude.{◌≡◌, Some};
ghost use Rattle.fault.specs.Lines.{refusal_line};
ghost use Rattle.fault.specs.Numbers.{letter, number, told};

use std::error::Error;
use std::fmt;

// Why a call refuses. The calls and their conditions are listed in docs/REFUSALS.md.
#[derive(Clone, Copy, Debug, PartialEq, Eq)]
pub enum Refusal {
    SecretLength = 1,
    PublicKeyLength = 2,
    RandomnessLength = 3,
    SignatureLength = 4,
    WorkTooShort = 5,
    MessageTooLong = 6,
    WrongSecret = 7,
    RegisterFull = 8,
    SaltListed = 9,
    FirstChallenge = 10,
    SecondChallenge = 11,
    UnknownKind = 12,
    BodyCutShort = 13,
    NotOneCouple = 14,
}

// The number of a refusal.
impl From<Refusal> for u8 {
    ghost from_gives = { λ r n. n ≡ number r };

    fn from(refusal: Refusal) -> u8 {
        refusal as u8
    }
}

// The layer that refused: the envelope's reader and judge, or the signature check.
#[derive(Clone, Copy, Debug, PartialEq, Eq)]
pub enum Origin {
    Envelope,
    Scheme,
}

impl Origin {
    pub fn letter(self) -> &'static str
        ensures { result.now ≡ letter self }
    {
        match self {
            Origin::Envelope => "E",
            Origin::Scheme => "S",
        }
    }
}

impl fmt::Display for Origin {
    ghost output = { λ o. Some (letter o) };

    fn fmt<W: fmt::Write>(&self, f: &mut fmt::Formatter<W>) -> fmt::Result {
        f.write_str(self.letter())
    }
}

// A refusal with its origin and the place of the byte that it is about.
#[derive(Clone, Copy, Debug, PartialEq, Eq)]
pub struct Fault {
    pub refusal: Refusal,
    pub origin: Origin,
    pub place: usize,
}

impl fmt::Display for Fault {
    ghost output = { λ f. Some (refusal_line (told f)) };

    fn fmt<W: fmt::Write>(&self, f: &mut fmt::Formatter<W>) -> fmt::Result {
        let number = u8::from(self.refusal);
        let origin = self.origin;
        let place = self.place;
        write!(f, "refusal {number} layer {origin} place {place}")
    }
}

impl Error for Fault {}

#[cfg(test)]
mod tests {
    use super::*;
    use std::test::Fail;

    #[test]
    fn a_fault_is_one_line(rt: HostRuntime) -> Result<(), Fail> {
        let heap = rt.alloc();
        let fault = Fault {
            refusal: Refusal::BodyCutShort,
            origin: Origin::Envelope,
            place: 5,
        };
        assert_eq!(rt;
            format!(in heap; "{fault}")?.as_str(),
            "refusal 13 layer E place 5"
        );
        let fault = Fault {
            refusal: Refusal::SecretLength,
            origin: Origin::Scheme,
            place: usize::MAX,
        };
        assert_eq!(rt;
            format!(in heap; "{fault}")?.as_str(),
            "refusal 1 layer S place 18446744073709551615"
        );
        Ok(())
    }
}
