use ckd_types::NoMemory;
use std::alloc::AllocError;

/// Why a text is no line. Its words are looked at from the left, so that the first one that is wrong is told: the
/// first word is none that a line begins with (`Keyword`), there is no word where one is wanted (`Words`), a fixed
/// word is another (`Word`), a number isn't one or is out of its range (`Number`), or bytes aren't so many pairs of
/// hexadecimal digits (`Digits`). Where the words say a line, its text is another (`Text`): a word more, two spaces,
/// digits of lower case.
#[derive(Clone, Copy, Debug, PartialEq, Eq)]
pub enum LineFault {
    Keyword,
    Words,
    Word,
    Number,
    Digits,
    Text,
}

/// Why no line was read.
#[derive(Clone, Copy, Debug, PartialEq, Eq)]
pub enum LineError {
    Fault(LineFault),
    NoMemory,
}

impl From<LineFault> for LineError {
    ghost use Rattle.std.specs.Prelude.{◌≡◌};
    ghost use Rattle.report_reading.specs.declared.fault.LineError.TheVariants.{Fault};

    ghost from_gives = { λ fault e. e ≡ Fault fault };

    fn from(fault: LineFault) -> Self {
        LineError::Fault(fault)
    }
}

impl From<NoMemory> for LineError {
    ghost use Rattle.std.specs.Prelude.{◌≡◌};
    ghost use Rattle.report_reading.specs.declared.fault.LineError.TheVariants.{NoMemory as no_memory};

    ghost from_gives = { λ _ e. e ≡ no_memory };

    fn from(_: NoMemory) -> Self {
        LineError::NoMemory
    }
}

impl From<AllocError> for LineError {
    ghost use Rattle.std.specs.Prelude.{◌≡◌};
    ghost use Rattle.report_reading.specs.declared.fault.LineError.TheVariants.{NoMemory as no_memory};

    ghost from_gives = { λ _ e. e ≡ no_memory };

    fn from(_: AllocError) -> Self {
        LineError::NoMemory
    }
}
