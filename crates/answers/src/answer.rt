// What a step and a run answer.
ghost use Rattle.std.specs.Prelude.{◌≡◌};
ghost use Rattle.answers.specs.Outcome.{cause_number, kind_letter, end_letter};

// Why a step resets the machine: the eight causes in their order.
#[derive(Clone, Copy, Debug, PartialEq, Eq)]
pub enum Cause {
    Execute,
    Reentry,
    FirstWord,
    SecondSide,
    SecondWord,
    Inside,
    Read,
    Write,
}

// What a step did.
#[derive(Clone, Copy, Debug, PartialEq, Eq)]
pub enum Outcome {
    Ran,
    Plain,
    Padded,
    Chained,
    Back,
    Reset(Cause),
    Halted,
}

// Why a run stopped.
#[derive(Clone, Copy, Debug, PartialEq, Eq)]
pub enum End {
    Halted,
    Clock,
    Address,
    Spent,
}

// Why a run stopped and how many steps it made.
#[derive(Clone, Copy, Debug, PartialEq, Eq)]
pub struct Stopped {
    pub end: End,
    pub steps: u64,
}

// The cause's number in document 01.
impl From<Cause> for u8 {
    ghost from_gives = { λ cause n. n ≡ cause_number cause };

    fn from(cause: Cause) -> u8 {
        match cause {
            Cause::Execute => 1,
            Cause::Reentry => 2,
            Cause::FirstWord => 3,
            Cause::SecondSide => 4,
            Cause::SecondWord => 5,
            Cause::Inside => 6,
            Cause::Read => 7,
            Cause::Write => 8,
        }
    }
}

impl Outcome {
    // The kind's letter on the bench sheet; a method, since `u8::from(outcome)` would not say that it is a letter.
    pub fn letter(self) -> u8
        ensures { result ≡ kind_letter self }
    {
        match self {
            Outcome::Ran => b'R',
            Outcome::Plain => b'I',
            Outcome::Padded => b'P',
            Outcome::Chained => b'C',
            Outcome::Back => b'B',
            Outcome::Reset(_) => b'X',
            Outcome::Halted => b'H',
        }
    }
}

impl End {
    // The end's letter; a method, as for an outcome.
    pub fn letter(self) -> u8
        ensures { result ≡ end_letter self }
    {
        match self {
            End::Halted => b'H',
            End::Clock => b'T',
            End::Address => b'A',
            End::Spent => b'S',
        }
    }
}
