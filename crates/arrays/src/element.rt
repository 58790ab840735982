//! Packed numbers, read by their type.

ghost use Rattle.std.specs.Prelude.{◌≡◌, ◌≤◌, ◌+◌, ◌*◌, ℕ, List, length, refl};
ghost use Rattle.arrow_types.specs.declared.data_type.IntegerType.{IntegerType};
ghost use Rattle.arrow_types.specs.declared.data_type.IntegerType.TheVariants as integer;
ghost use Rattle.arrays.specs.Number.{byte_width, element_at, integer_at, AreBytes};
ghost use Rattle.arrays.specs.inside.SignedNumbers.{signed8, signed16, signed32, signed64, fits8};
ghost use Rattle.arrays.specs.inside.SignedNumbers.{fits16};
ghost use Rattle.arrays.specs.inside.SignedNumbers.{fits32, fits64, element_small};

use byteorder::{ByteOrder, LittleEndian};
use num_traits::FixedWidth;

/// A type of numbers that buffers hold packed: one after another, each with its lowest byte first,
/// those with a sign in two's complement. What is written once over it reads each such buffer as it
/// lies.
pub trait Element: FixedWidth + Copy + Ord {
    ghost WIDTH: { ℕ };

    /// Number `place` of packed ones, counted from 0.
    fn read(values: &[u8], place: usize) -> Self
        requires { WIDTH * (place + 1) ≤ length values.now }
        ensures { result ≡ Self.of_bits (element_at WIDTH values.now place) };

    /// The same number, of 128 bits.
    fn wide(self) -> i128
        ensures { result ≡ Self.value self };
}

impl Element for i8 {
    ghost WIDTH = { 1 };

    fn read(values: &[u8], place: usize) -> i8 {
        u8::read(values, place).cast_signed()
    }

    fn wide(self) -> i128 {
        i128::from(self)
    }
}

impl Element for u8 {
    ghost WIDTH = { 1 };

    fn read(values: &[u8], place: usize) -> u8 {
        values[place]
    }

    fn wide(self) -> i128 {
        i128::from(self)
    }
}

impl Element for i16 {
    ghost WIDTH = { 2 };

    fn read(values: &[u8], place: usize) -> i16 {
        LittleEndian::read_i16(&values[2 * place..])
    }

    fn wide(self) -> i128 {
        i128::from(self)
    }
}

impl Element for u16 {
    ghost WIDTH = { 2 };

    fn read(values: &[u8], place: usize) -> u16 {
        LittleEndian::read_u16(&values[2 * place..])
    }

    fn wide(self) -> i128 {
        i128::from(self)
    }
}

impl Element for i32 {
    ghost WIDTH = { 4 };

    fn read(values: &[u8], place: usize) -> i32 {
        LittleEndian::read_i32(&values[4 * place..])
    }

    fn wide(self) -> i128 {
        i128::from(self)
    }
}

impl Element for u32 {
    ghost WIDTH = { 4 };

    fn read(values: &[u8], place: usize) -> u32 {
        LittleEndian::read_u32(&values[4 * place..])
    }

    fn wide(self) -> i128 {
        i128::from(self)
    }
}

impl Element for i64 {
    ghost WIDTH = { 8 };

    fn read(values: &[u8], place: usize) -> i64 {
        LittleEndian::read_i64(&values[8 * place..])
    }

    fn wide(self) -> i128 {
        i128::from(self)
    }
}

impl Element for u64 {
    ghost WIDTH = { 8 };

    fn read(values: &[u8], place: usize) -> u64 {
        LittleEndian::read_u64(&values[8 * place..])
    }

    fn wide(self) -> i128 {
        i128::from(self)
    }
}

impl Element for i128 {
    ghost WIDTH = { 16 };

    fn read(values: &[u8], place: usize) -> i128 {
        LittleEndian::read_i128(&values[16 * place..])
    }

    fn wide(self) -> i128 {
        self
    }
}

/// A type of packed integers of a column.
pub trait Integer: Element {
    ghost KIND: { IntegerType };

    /// Number `place` of packed ones, counted from 0.
    fn number_at(values: &[u8], place: usize) -> i128
        requires { byte_width KIND * (place + 1) ≤ length values.now }
        ensures { result ≡ integer_at KIND values.now place };

    // A number has as many bytes as its integer type says.
    ghost same_width: { Self.WIDTH ≡ byte_width KIND };

    // What packed numbers are as numbers of this type, they are as integers of their type.
    ghost same_number: { (values : List ℕ) (place : ℕ) →
        Self.value (Self.of_bits (element_at Self.WIDTH values place))
        ≡ integer_at KIND values place };

    // They are numbers of this type.
    ghost in_range: { (values : List ℕ) (place : ℕ) → AreBytes values →
        Self.fits (integer_at KIND values place) };
}

impl Integer for i8 {
    ghost KIND = { integer.Int8 };

    ghost same_width = { refl };

    ghost same_number = { λ values place. signed8 (element_at 1 values place) };

    ghost in_range = { fits8 };

    fn number_at(values: &[u8], place: usize) -> i128 {
        i128::from(i8::read(values, place))
    }
}

impl Integer for i16 {
    ghost KIND = { integer.Int16 };

    ghost same_width = { refl };

    ghost same_number = { λ values place. signed16 (element_at 2 values place) };

    ghost in_range = { fits16 };

    fn number_at(values: &[u8], place: usize) -> i128 {
        i128::from(i16::read(values, place))
    }
}

impl Integer for i32 {
    ghost KIND = { integer.Int32 };

    ghost same_width = { refl };

    ghost same_number = { λ values place. signed32 (element_at 4 values place) };

    ghost in_range = { fits32 };

    fn number_at(values: &[u8], place: usize) -> i128 {
        i128::from(i32::read(values, place))
    }
}

impl Integer for i64 {
    ghost KIND = { integer.Int64 };

    ghost same_width = { refl };

    ghost same_number = { λ values place. signed64 (element_at 8 values place) };

    ghost in_range = { fits64 };

    fn number_at(values: &[u8], place: usize) -> i128 {
        i128::from(i64::read(values, place))
    }
}

impl Integer for u8 {
    ghost KIND = { integer.UInt8 };

    ghost same_width = { refl };

    ghost same_number = { λ _ _. refl };

    ghost in_range = { λ values place bytes. element_small 1 place values bytes };

    fn number_at(values: &[u8], place: usize) -> i128 {
        i128::from(u8::read(values, place))
    }
}

impl Integer for u16 {
    ghost KIND = { integer.UInt16 };

    ghost same_width = { refl };

    ghost same_number = { λ _ _. refl };

    ghost in_range = { λ values place bytes. element_small 2 place values bytes };

    fn number_at(values: &[u8], place: usize) -> i128 {
        i128::from(u16::read(values, place))
    }
}

impl Integer for u32 {
    ghost KIND = { integer.UInt32 };

    ghost same_width = { refl };

    ghost same_number = { λ _ _. refl };

    ghost in_range = { λ values place bytes. element_small 4 place values bytes };

    fn number_at(values: &[u8], place: usize) -> i128 {
        i128::from(u32::read(values, place))
    }
}

impl Integer for u64 {
    ghost KIND = { integer.UInt64 };

    ghost same_width = { refl };

    ghost same_number = { λ _ _. refl };

    ghost in_range = { λ values place bytes. element_small 8 place values bytes };

    fn number_at(values: &[u8], place: usize) -> i128 {
        i128::from(u64::read(values, place))
    }
}
