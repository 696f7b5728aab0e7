// Why a layout is refused: the first rule that it breaks, with the addresses that break it.
use crate::reason::{LayoutText, Place, Reason, Text};
use base::word::is_even;
use layout::rules::Rule;
use layout::sections::Layout;
use lines::line::{Content, read_line};

// What is said of each of the five addresses where it is odd.
const ODD: [LayoutText; 5] = [
    LayoutText::CodeStartOdd,
    LayoutText::CodeEndOdd,
    LayoutText::DataStartOdd,
    LayoutText::DataEndOdd,
    LayoutText::ServiceOdd,
];

// The first odd address.
fn odd_reason(layout: Layout) -> Reason {
    let addresses: [u16; 5] = layout.into();
    let told = addresses.iter().zip(ODD).zip(1..);
    for ((address, text), field) in told {
        if !is_even(*address) {
            return Reason::quoting(Text::Layout(text), Place::new(1, field));
        }
    }
    Reason::plain(Text::Layout(LayoutText::AnyRule))
}

// The rule that is broken: an odd address, a start not below its end, sections that overlap, a service address in one.
fn rule_reason(layout: Layout, rule: Rule) -> Reason {
    let code = layout.code;
    match rule {
        Rule::Odd => odd_reason(layout),
        Rule::Empty => {
            if code.start < code.end {
                return Reason::quoting_two(
                    Text::Layout(LayoutText::DataEmpty),
                    Place::new(1, 3),
                    Place::new(1, 4),
                );
            }
            Reason::quoting_two(
                Text::Layout(LayoutText::CodeEmpty),
                Place::new(1, 1),
                Place::new(1, 2),
            )
        }
        Rule::Overlap => Reason::quoting_two(
            Text::Layout(LayoutText::Overlap),
            Place::new(1, 3),
            Place::new(1, 4),
        ),
        Rule::Service => {
            if code.contains(layout.service) {
                return Reason::quoting(Text::Layout(LayoutText::ServiceInCode), Place::new(1, 5));
            }
            Reason::quoting(Text::Layout(LayoutText::ServiceInData), Place::new(1, 5))
        }
    }
}

// Why the layout of an L line is refused.
pub fn fence_reason(line: &[u8]) -> Reason {
    let Some(Content::Layout(layout)) = read_line(line) else {
        return Reason::plain(Text::Layout(LayoutText::AnyRule));
    };
    let Some(rule) = layout.fault() else {
        return Reason::plain(Text::Layout(LayoutText::AnyRule));
    };
    rule_reason(layout, rule)
}
