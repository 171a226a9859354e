// What follows from an id, and from the pair of class and instruction.
ghost use Rattle.std.specs.Prelude.{◌≡◌};
ghost use Rattle.zvt_rules.specs.Fields.{format_of, holds_digits};
ghost use Rattle.zvt_rules.specs.Message.{layout_of};

use zvt_rules::{Format, Layout};

pub(crate) fn format_of(id: u8) -> Format
    ensures { result ≡ format_of id }
{
    match id {
        0x01
        | 0x02
        | 0x03
        | 0x05
        | 0x19
        | 0x27
        | 0x72..=0x75
        | 0x8A
        | 0x8C
        | 0xA0
        | 0xD0
        | 0xD2
        | 0xD3
        | 0xE0
        | 0xE9
        | 0xEA
        | 0xF0
        | 0xF9..=0xFD => Format::Fixed(1),
        0x0D | 0x0E | 0x17 | 0x3A | 0x49 | 0x87 => Format::Fixed(2),
        0x0B | 0x0C | 0x37 | 0x3D | 0x88 | 0xAA => Format::Fixed(3),
        0x29 | 0x70 | 0x71 => Format::Fixed(4),
        0xBA => Format::Fixed(5),
        0x04 => Format::Fixed(6),
        0x3B | 0xEB => Format::Fixed(8),
        0x2A => Format::Fixed(15),
        0x22 | 0x23 | 0x2D | 0x4C | 0x8B | 0xA7 | 0xD1 | 0xE1..=0xE8 | 0xF1..=0xF8 => {
            Format::Digits(2)
        }
        0x24 | 0x2E | 0x3C | 0x60 | 0x92 | 0x9A | 0xAF => Format::Digits(3),
        0x06 => Format::Container,
        _ => Format::Unknown,
    }
}

// Fields whose value must be decimal digits.
pub(crate) fn holds_digits(id: u8) -> bool
    ensures { result ≡ holds_digits id }
{
    matches!(id, 0x04 | 0x0B | 0x37 | 0x49 | 0x87 | 0x88)
}

pub(crate) fn layout_of(class: u8, instruction: u8) -> Layout
    ensures { result ≡ layout_of class instruction }
{
    let pair = usize::from(class) * 256 + usize::from(instruction);
    match pair {
        0x0601 | 0x040F | 0x060F | 0x06D3 => Layout::List,
        0x0621 | 0x0630 | 0x0631 | 0x0650 => Layout::Secured,
        _ => Layout::Plain,
    }
}
