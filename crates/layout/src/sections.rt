// The five addresses of a layout, and the section that an address lies in.
ghost use Rattle.std.specs.Prelude.{◌≡◌};
ghost use Rattle.layout.specs.Sections.{within, section, inside, outside, same_side};
ghost use Rattle.layout.specs.Fields.{layout_of, layout_fields};

// A section's addresses: the start is its first, the end is past its last.
#[derive(Clone, Copy, Debug, PartialEq, Eq)]
pub struct Span {
    pub start: u16,
    pub end: u16,
}

// A layout: code start and end, data start and end, service address.
#[derive(Clone, Copy, Debug, PartialEq, Eq)]
pub struct Layout {
    pub code: Span,
    pub data: Span,
    pub service: u16,
}

// What an address lies in: the code section, the data section, or neither.
#[derive(Clone, Copy, Debug, PartialEq, Eq)]
pub enum Section {
    Outside,
    Code,
    Data,
}

impl Span {
    // The address is one of the span's.
    #[tactic(auto, unfolding(crate::specs::Sections::within, base::specs::Test::all))]
    pub fn contains(self, a: u16) -> bool
        ensures { result ≡ within self a }
    {
        self.start <= a && a < self.end
    }
}

impl Layout {
    // The section that an address lies in.
    #[tactic(auto, using(base::proofs::Tests::choices), unfolding(crate::specs::Sections::section))]
    pub fn section(self, a: u16) -> Section
        ensures { result ≡ section self a }
    {
        if self.code.contains(a) {
            return Section::Code;
        }
        if self.data.contains(a) {
            return Section::Data;
        }
        Section::Outside
    }

    // The address is inside: in the code section.
    #[tactic(auto, unfolding(crate::specs::Sections::inside))]
    pub fn inside(self, a: u16) -> bool
        ensures { result ≡ inside self a }
    {
        self.section(a) == Section::Code
    }

    // The address is outside: in neither section.
    #[tactic(auto, unfolding(crate::specs::Sections::outside))]
    pub fn outside(self, a: u16) -> bool
        ensures { result ≡ outside self a }
    {
        self.section(a) == Section::Outside
    }

    // The two addresses are on one side: both in code, both in data or both outside.
    #[tactic(auto, unfolding(crate::specs::Sections::same_side))]
    pub fn same_side(self, a: u16, b: u16) -> bool
        ensures { result ≡ same_side self a b }
    {
        self.section(a) == self.section(b)
    }
}

// A layout by its five addresses: code start and end, data start and end, service address.
impl From<[u16; 5]> for Layout {
    ghost from_gives = { λ fields layout. layout ≡ layout_of fields };

    #[tactic(auto, unfolding(crate::specs::Fields::layout_of))]
    fn from(fields: [u16; 5]) -> Layout {
        let [code_start, code_end, data_start, data_end, service] = fields;
        Layout {
            code: Span {
                start: code_start,
                end: code_end,
            },
            data: Span {
                start: data_start,
                end: data_end,
            },
            service,
        }
    }
}

// The five addresses of a layout.
impl From<Layout> for [u16; 5] {
    ghost from_gives = { λ layout fields. fields ≡ layout_fields layout };

    #[tactic(auto, unfolding(crate::specs::Fields::layout_fields))]
    fn from(layout: Layout) -> [u16; 5] {
        let Layout {
            code,
            data,
            service,
        } = layout;
        [code.start, code.end, data.start, data.end, service]
    }
}
