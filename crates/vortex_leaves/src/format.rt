//! How numbers are held in a buffer.

ghost use Rattle.std.specs.Prelude.{◌≡◌};
ghost use Rattle.std.specs.Option.{option_map};
ghost use Rattle.vortex_number.specs.PType.{format_of};
ghost use Rattle.vortex_node_rows.specs.Leaves.{value_type_format};
ghost use Rattle.vortex_leaves.specs.Numbers.{number_format, number_width};

use vortex_number::PType;

/// How numbers are held in a buffer, the lowest byte first.
#[derive(Clone, Copy, Debug, PartialEq, Eq)]
pub enum NumberFormat {
    U8,
    U16,
    U32,
    U64,
    I8,
    I16,
    I32,
    I64,
    I128,
}

impl NumberFormat {
    /// That of a kind of whole numbers.
    pub fn of(ptype: PType) -> NumberFormat
        ensures { number_format result ≡ format_of ptype }
    {
        match ptype {
            PType::U8 => NumberFormat::U8,
            PType::U16 => NumberFormat::U16,
            PType::U32 => NumberFormat::U32,
            PType::U64 => NumberFormat::U64,
            PType::I8 => NumberFormat::I8,
            PType::I16 => NumberFormat::I16,
            PType::I32 => NumberFormat::I32,
            PType::I64 => NumberFormat::I64,
        }
    }

    /// That of the decimals of a value type.
    pub fn of_value_type(value_type: u32) -> Option<NumberFormat>
        ensures { option_map number_format result ≡ value_type_format value_type }
    {
        match value_type {
            0 => Some(NumberFormat::I8),
            1 => Some(NumberFormat::I16),
            2 => Some(NumberFormat::I32),
            3 => Some(NumberFormat::I64),
            4 => Some(NumberFormat::I128),
            _ => None,
        }
    }

    /// How many bytes a number takes.
    pub fn width(self) -> usize
        ensures { result ≡ number_width self }
    {
        match self {
            NumberFormat::U8 | NumberFormat::I8 => 1,
            NumberFormat::U16 | NumberFormat::I16 => 2,
            NumberFormat::U32 | NumberFormat::I32 => 4,
            NumberFormat::U64 | NumberFormat::I64 => 8,
            NumberFormat::I128 => 16,
        }
    }
}
