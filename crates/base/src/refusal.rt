// The numbered refusals of document 01, 'Callers', and of the change requests to it.
ghost use Rattle.std.specs.Prelude.{◌≡◌};
ghost use Rattle.base.specs.Refusal.{refusal_number};

// What a call can be refused for, by the papers' word for it.
#[derive(Clone, Copy, Debug, PartialEq, Eq)]
pub enum Refusal {
    Map,
    Fence,
    Timetable,
    Frame,
    Distance,
    Clock,
    Line,
    Sheet,
    Word,
    Trace,
    Landmark,
}

// Why a sheet is refused: the first refusal, and the line that it is for. Line 0 is the sheet as a whole; no Option, since document 01 prints it.
#[derive(Clone, Copy)]
pub struct SheetRefusal {
    pub refusal: Refusal,
    pub line: u64,
}

impl SheetRefusal {
    // A refusal for a line.
    pub fn new(refusal: Refusal, line: u64) -> SheetRefusal
        ensures { result ≡ record { refusal = refusal; line = line } }
    {
        SheetRefusal { refusal, line }
    }
}

// The refusal's number in the papers.
impl From<Refusal> for u8 {
    ghost from_gives = { λ refusal n. n ≡ refusal_number refusal };

    fn from(refusal: Refusal) -> u8 {
        match refusal {
            Refusal::Map => 1,
            Refusal::Fence => 2,
            Refusal::Timetable => 3,
            Refusal::Frame => 4,
            Refusal::Distance => 5,
            Refusal::Clock => 6,
            Refusal::Line => 7,
            Refusal::Sheet => 8,
            Refusal::Word => 9,
            Refusal::Trace => 10,
            Refusal::Landmark => 11,
        }
    }
}
