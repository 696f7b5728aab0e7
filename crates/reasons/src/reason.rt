// What is wrong with a sheet: a text, and the fields of the sheet that it quotes.
ghost use Rattle.std.specs.Prelude.{◌≡◌, None, Some};

// A field of a line.
#[derive(Clone, Copy)]
pub struct Place {
    pub line: u64,
    pub field: usize,
}

impl Place {
    // The field of a line.
    pub fn new(line: u64, field: usize) -> Place
        ensures { result ≡ record { line = line; field = field } }
    {
        Place { line, field }
    }
}

// A text, and the fields for its first and its second percent sign.
#[derive(Clone, Copy)]
pub struct Reason {
    pub text: Text,
    pub first: Option<Place>,
    pub second: Option<Place>,
}

impl Reason {
    // A text that quotes nothing.
    pub fn plain(text: Text) -> Reason
        ensures { result ≡ record { text = text; first = None; second = None } }
    {
        Reason {
            text,
            first: None,
            second: None,
        }
    }

    // A text that quotes a field.
    pub fn quoting(text: Text, first: Place) -> Reason
        ensures { result ≡ record { text = text; first = Some first; second = None } }
    {
        Reason {
            text,
            first: Some(first),
            second: None,
        }
    }

    // A text that quotes a field, and then another.
    pub fn quoting_two(text: Text, first: Place, second: Place) -> Reason
        ensures { result ≡ record { text = text; first = Some first; second = Some second } }
    {
        Reason {
            text,
            first: Some(first),
            second: Some(second),
        }
    }
}

// What is said of a sheet.
#[derive(Clone, Copy)]
pub enum Text {
    Layout(LayoutText),
    Stamp(StampText),
    Line(LineText),
    BudgetHigh,
    TooLong,
    NoReason,
}

impl Text {
    // Its words: a percent sign stands for a field that is quoted. Bytes and no `Display`: a sheet's fields need not be text.
    pub fn words(self) -> &'static [u8] {
        match self {
            Text::Layout(text) => text.words(),
            Text::Stamp(text) => text.words(),
            Text::Line(text) => text.words(),
            Text::BudgetHigh => b"the budget % is above 1,000,000: lower it",
            Text::TooLong => {
                b"the sheet has more than 32,768 bytes: shorten it, or make several of it"
            }
            Text::NoReason => b"no sheet is refused for this",
        }
    }
}

// What is said of a layout that is refused.
#[derive(Clone, Copy)]
pub enum LayoutText {
    AnyRule,
    CodeStartOdd,
    CodeEndOdd,
    DataStartOdd,
    DataEndOdd,
    ServiceOdd,
    CodeEmpty,
    DataEmpty,
    Overlap,
    ServiceInCode,
    ServiceInData,
}

impl LayoutText {
    fn words(self) -> &'static [u8] {
        match self {
            LayoutText::AnyRule => b"the layout breaks a rule",
            LayoutText::CodeStartOdd => b"code start % is odd: all five addresses must be even",
            LayoutText::CodeEndOdd => b"code end % is odd: all five addresses must be even",
            LayoutText::DataStartOdd => b"data start % is odd: all five addresses must be even",
            LayoutText::DataEndOdd => b"data end % is odd: all five addresses must be even",
            LayoutText::ServiceOdd => b"service address % is odd: all five addresses must be even",
            LayoutText::CodeEmpty => b"code start % is not below code end %",
            LayoutText::DataEmpty => b"data start % is not below data end %",
            LayoutText::Overlap => {
                b"the data section, % to %, overlaps the code section: move one of them"
            }
            LayoutText::ServiceInCode => {
                b"service address % lies in the code section: it must be outside both"
            }
            LayoutText::ServiceInData => {
                b"service address % lies in the data section: it must be outside both"
            }
        }
    }
}

// What is said of a stamp that is refused.
#[derive(Clone, Copy)]
pub enum StampText {
    TooManyStamps,
    StampZero,
    StampLate,
    StampNotRising,
}

impl StampText {
    fn words(self) -> &'static [u8] {
        match self {
            StampText::TooManyStamps => b"stamp % is the 4,097th: a sheet has at most 4,096",
            StampText::StampZero => b"stamp 0 is too low: stamps begin at 1",
            StampText::StampLate => b"stamp % is above 2^62, which is 4611686018427387904",
            StampText::StampNotRising => b"stamp % is not above the one before it, %",
        }
    }
}

// What is said of a line that cannot be read.
#[derive(Clone, Copy)]
pub enum LineText {
    EmptySheet,
    GMissing,
    AfterG,
    NoNewline,
    CarriageReturn,
    Space,
    LMissing,
    LForm,
    SecondL,
    MForm,
    MOdd,
    AForm,
    TForm,
    GForm,
    NoLetter,
}

impl LineText {
    fn words(self) -> &'static [u8] {
        match self {
            LineText::EmptySheet => {
                b"the sheet is empty: it begins with an L line and ends with a G line"
            }
            LineText::GMissing => b"the G line is missing: the last line is G, a tab and a budget",
            LineText::AfterG => b"something stands after the G line, which must be the last",
            LineText::NoNewline => b"the sheet ends without a newline: add one after its last line",
            LineText::CarriageReturn => {
                b"the line ends with a carriage return: a newline alone ends a line"
            }
            LineText::Space => b"the line has a space: fields are parted by single tabs",
            LineText::LMissing => {
                b"the first line is no L line: L and the five addresses of the layout come first"
            }
            LineText::LForm => {
                b"L takes five addresses, four hexadecimal digits in capitals each, parted by single tabs"
            }
            LineText::SecondL => b"a second L line: only the first line is one",
            LineText::MForm => {
                b"M takes an even address and a word, four hexadecimal digits in capitals each, parted by single tabs"
            }
            LineText::MOdd => b"address % is odd: M takes an even address and a word",
            LineText::AForm => {
                b"A takes a stamp, a decimal of at most 19 digits without a leading zero, after a single tab"
            }
            LineText::TForm => {
                b"T takes a stamp, a decimal of at most 19 digits without a leading zero, and a word, four hexadecimal digits in capitals, parted by single tabs"
            }
            LineText::GForm => {
                b"G takes a budget, a decimal of at most 19 digits without a leading zero, after a single tab"
            }
            LineText::NoLetter => {
                b"a line begins with L, M, A, T or G and a tab, and this one does not"
            }
        }
    }
}
