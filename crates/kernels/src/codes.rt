//! Packed numbers by their codes: what their bits are as numbers without a sign.

ghost use Rattle.std.specs.Prelude.{◌≡◌, ◌==◌, ◌≤◌, ◌<◌, ◌≤ℤ◌, ◌<ℤ◌, ◌+◌, ◌-◌, ◌*◌, ◌^◌, ℕ, pos};
ghost use Rattle.std.specs.Prelude.{negsuc, suc, nat_lt, if◌then◌else◌, length};
ghost use Rattle.std.specs.Ordering.{int_cmp, is_eq};
ghost use Rattle.arrow_types.specs.DataType.{bit_width};
ghost use Rattle.arrays.specs.Number.{byte_width, element_at, number_from};
ghost use Rattle.kernels.specs.Codes.{code_at, is_code};
ghost use Rattle.kernels.specs.Tests.{tests};
ghost use Rattle.kernels.specs.Words.{bit};
ghost use Rattle.std.specs.Simd.Lanes.{mask_l};

use arrays::Element;
use arrow_types::IntegerType;
use std::simd::prelude::*;
use std::simd::{u8x64, u16x32, u32x16, u64x8};

/// The code of a number in an integer type, where the type has it.
pub(crate) fn code_of(integer: IntegerType, number: i128) -> Option<u64>
    ensures { (code : ℕ) → code < 2 ^ bit_width integer →
        is_code result code ≡ is_eq (int_cmp (number_from integer code) number) }
{
    match integer {
        IntegerType::Int8 => signed_code(number, 1 << 7),
        IntegerType::Int16 => signed_code(number, 1 << 15),
        IntegerType::Int32 => signed_code(number, 1 << 31),
        IntegerType::Int64 => signed_code(number, 1 << 63),
        IntegerType::UInt8 => unsigned_code(number, 1 << 8),
        IntegerType::UInt16 => unsigned_code(number, 1 << 16),
        IntegerType::UInt32 => unsigned_code(number, 1 << 32),
        IntegerType::UInt64 => unsigned_code(number, 1 << 64),
    }
}

// The code of a number in two's complement, where codes from `half` on are of negative numbers.
fn signed_code(number: i128, half: u64) -> Option<u64>
    requires { half ≤ 2 ^ 63 }
    ensures { (code : ℕ) → code < 2 * half →
        is_code result code ≡ is_eq
        (int_cmp (if nat_lt code half then pos code else negsuc (2 * half - suc code)) number) }
{
    let half = i128::from(half);
    if number < -half || half <= number {
        return None;
    }
    if number < 0 {
        return Some((2 * half + number) as u64);
    }
    Some(number as u64)
}

// The code of a number without a sign, where there are `count` of them.
fn unsigned_code(number: i128, count: i128) -> Option<u64>
    requires { count ≤ℤ pos 18446744073709551616 }
    ensures { (code : ℕ) → pos code <ℤ count →
        is_code result code ≡ is_eq (int_cmp (pos code) number) }
{
    if number < 0 || count <= number {
        return None;
    }
    Some(number as u64)
}

/// The code of a packed number.
pub(crate) fn code_at(integer: IntegerType, values: &[u8], place: usize) -> u64
    requires { byte_width integer * (place + 1) ≤ length values.now }
    ensures { result ≡ code_at integer values.now place }
{
    match integer {
        IntegerType::Int8 | IntegerType::UInt8 => u64::from(u8::read(values, place)),
        IntegerType::Int16 | IntegerType::UInt16 => u64::from(u16::read(values, place)),
        IntegerType::Int32 | IntegerType::UInt32 => u64::from(u32::read(values, place)),
        IntegerType::Int64 | IntegerType::UInt64 => u64::read(values, place),
    }
}

/// Which of the 64 packed numbers from `from` on have a code.
pub(crate) fn word_with_code(integer: IntegerType, values: &[u8], from: usize, code: u64) -> u64
    requires { byte_width integer * (from + 64) ≤ length values.now }
    ensures { (row : ℕ) → row < 64 →
        bit result row ≡ (code_at integer values.now (from + row) == code) }
{
    match integer {
        IntegerType::Int8 | IntegerType::UInt8 => word_of_bytes(values, from, code),
        IntegerType::Int16 | IntegerType::UInt16 => word_of_shorts(values, from, code),
        IntegerType::Int32 | IntegerType::UInt32 => word_of_ints(values, from, code),
        IntegerType::Int64 | IntegerType::UInt64 => word_of_longs(values, from, code),
    }
}

// The same of numbers of one byte.
fn word_of_bytes(values: &[u8], from: usize, code: u64) -> u64
    requires { from + 64 ≤ length values.now }
    ensures { (row : ℕ) → row < 64 →
        bit result row ≡ (element_at 1 values.now (from + row) == code) }
{
    match u8::try_from(code) {
        Ok(code) => bytes_with_code(values, from, code),
        Err(_) => 0,
    }
}

fn bytes_with_code(values: &[u8], from: usize, code: u8) -> u64
    requires { from + 64 ≤ length values.now }
    ensures { result ≡ mask_l (tests (λ place. element_at 1 values.now place == code) from 64) }
{
    let lanes = u8x64::from_slice(&values[from..from + 64]);
    lanes.simd_eq(u8x64::splat(code)).to_bitmask()
}

// The same of numbers of two bytes.
fn word_of_shorts(values: &[u8], from: usize, code: u64) -> u64
    requires { 2 * (from + 64) ≤ length values.now }
    ensures { (row : ℕ) → row < 64 →
        bit result row ≡ (element_at 2 values.now (from + row) == code) }
{
    match u16::try_from(code) {
        Ok(code) => joined_shorts(values, from, code),
        Err(_) => 0,
    }
}

fn joined_shorts(values: &[u8], from: usize, code: u16) -> u64
    requires { 2 * (from + 64) ≤ length values.now }
    ensures { result ≡ mask_l (tests (λ place. element_at 2 values.now place == code) from 64) }
{
    let mut word = 0u64;
    for k in 0..2usize {
        word = word * 4294967296 + shorts_with_code(values, from + 32 * (1 - k), code);
    }
    word
}

fn shorts_with_code(values: &[u8], from: usize, code: u16) -> u64
    requires { 2 * (from + 32) ≤ length values.now }
    ensures { result ≡ mask_l (tests (λ place. element_at 2 values.now place == code) from 32) }
{
    let lanes = u16x32::from_le_bytes(u8x64::from_slice(&values[2 * from..2 * from + 64]));
    lanes.simd_eq(u16x32::splat(code)).to_bitmask()
}

// The same of numbers of four bytes.
fn word_of_ints(values: &[u8], from: usize, code: u64) -> u64
    requires { 4 * (from + 64) ≤ length values.now }
    ensures { (row : ℕ) → row < 64 →
        bit result row ≡ (element_at 4 values.now (from + row) == code) }
{
    match u32::try_from(code) {
        Ok(code) => joined_ints(values, from, code),
        Err(_) => 0,
    }
}

fn joined_ints(values: &[u8], from: usize, code: u32) -> u64
    requires { 4 * (from + 64) ≤ length values.now }
    ensures { result ≡ mask_l (tests (λ place. element_at 4 values.now place == code) from 64) }
{
    let mut word = 0u64;
    for k in 0..4usize {
        word = word * 65536 + ints_with_code(values, from + 16 * (3 - k), code);
    }
    word
}

fn ints_with_code(values: &[u8], from: usize, code: u32) -> u64
    requires { 4 * (from + 16) ≤ length values.now }
    ensures { result ≡ mask_l (tests (λ place. element_at 4 values.now place == code) from 16) }
{
    let lanes = u32x16::from_le_bytes(u8x64::from_slice(&values[4 * from..4 * from + 64]));
    lanes.simd_eq(u32x16::splat(code)).to_bitmask()
}

// The same of numbers of eight bytes.
fn word_of_longs(values: &[u8], from: usize, code: u64) -> u64
    requires { 8 * (from + 64) ≤ length values.now }
    ensures { (row : ℕ) → row < 64 →
        bit result row ≡ (element_at 8 values.now (from + row) == code) }
{
    joined_longs(values, from, code)
}

fn joined_longs(values: &[u8], from: usize, code: u64) -> u64
    requires { 8 * (from + 64) ≤ length values.now }
    ensures { result ≡ mask_l (tests (λ place. element_at 8 values.now place == code) from 64) }
{
    let mut word = 0u64;
    for k in 0..8usize {
        word = word * 256 + longs_with_code(values, from + 8 * (7 - k), code);
    }
    word
}

fn longs_with_code(values: &[u8], from: usize, code: u64) -> u64
    requires { 8 * (from + 8) ≤ length values.now }
    ensures { result ≡ mask_l (tests (λ place. element_at 8 values.now place == code) from 8) }
{
    let lanes = u64x8::from_le_bytes(u8x64::from_slice(&values[8 * from..8 * from + 64]));
    lanes.simd_eq(u64x8::splat(code)).to_bitmask()
}
