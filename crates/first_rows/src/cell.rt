//! Values of a key: what is compared of them next to the number of long texts, which are the same,
//! and what a hash takes of them.

ghost use Rattle.std.specs.Prelude.{◌≡◌, option_map};
ghost use Rattle.std.specs.List.{fold};
ghost use Rattle.scan_base.specs.Value.{value_of};
ghost use Rattle.typed_plan.specs.GroupedRows.{same_value};
ghost use Rattle.first_rows.specs.Keys.{value_input};
ghost use Rattle.first_rows.specs.NumberedKeys.{rest, texts_input};
ghost use Rattle.first_rows.specs.Numbers.{long_text};
ghost use Rattle.first_rows.specs.Parts.{part_input, same_part};

use scan_base::ValueRef;
use std::hash::{Hash, Hasher};

// A text of no more bytes is compared sooner than its number is looked for.
const SHORT_TEXT: usize = 128;

/// The text of a value that is a long one.
pub(crate) fn long_text<'t>(value: ValueRef<'t>) -> Option<&'t str>
    ensures { option_map (λ text. text.now) result ≡ long_text (value_of value.entry) }
{
    match value {
        ValueRef::Text(text) => {
            if text.len() > SHORT_TEXT {
                Some(text)
            } else {
                None
            }
        }
        ValueRef::Null => None,
        ValueRef::Bool(_) => None,
        ValueRef::Int(_) => None,
    }
}

/// What is compared of a value next to the number of long texts: nothing of a long text that has a
/// number.
pub(crate) fn rest<'t>(texts: u32, value: ValueRef<'t>) -> Option<ValueRef<'t>>
    ensures { option_map value_of result ≡ rest texts (value_of value.entry) }
{
    if texts != 0 && long_text(value).is_some() {
        return None;
    }
    Some(value)
}

/// Whether the same is compared of two values.
pub(crate) fn are_same_parts(a: Option<ValueRef<'_>>, b: Option<ValueRef<'_>>) -> bool
    ensures { result ≡ same_part (option_map value_of a.entry) (option_map value_of b.entry) }
{
    match (a, b) {
        (Some(a), Some(b)) => are_same(a, b),
        (None, None) => true,
        (_, _) => false,
    }
}

/// Takes what is compared of a value into a hash. That of a long text is a byte of its own, so that
/// a hash tells which parts are long.
pub(crate) fn hash_part<H: Hasher>(part: Option<ValueRef<'_>>, state: &mut H)
    ensures { state.new ≡ fold H.write state.old (part_input (option_map value_of part.entry)) }
{
    match part {
        Some(value) => hash_value(value, state),
        None => state.write_u8(4),
    }
}

// Whether two values are the same in a key, where two nulls are.
fn are_same(a: ValueRef<'_>, b: ValueRef<'_>) -> bool
    ensures { result ≡ same_value (value_of a.entry) (value_of b.entry) }
{
    match (a, b) {
        (ValueRef::Null, ValueRef::Null) => true,
        (ValueRef::Bool(a), ValueRef::Bool(b)) => a == b,
        (ValueRef::Int(a), ValueRef::Int(b)) => a == b,
        (ValueRef::Text(a), ValueRef::Text(b)) => a == b,
        (_, _) => false,
    }
}

// Takes a value into a hash: first a byte that tells its kind, so that no value takes as another
// kind's does.
fn hash_value<H: Hasher>(value: ValueRef<'_>, state: &mut H)
    ensures { state.new ≡ fold H.write state.old (value_input (value_of value.entry)) }
{
    match value {
        ValueRef::Null => state.write_u8(0),
        ValueRef::Bool(flag) => {
            state.write_u8(1);
            flag.hash(state);
        }
        ValueRef::Int(number) => {
            state.write_u8(2);
            number.hash(state);
        }
        ValueRef::Text(text) => {
            state.write_u8(3);
            text.hash(state);
        }
    }
}

/// Takes a number of texts into a hash, where some have one.
pub(crate) fn hash_texts<H: Hasher>(texts: u32, state: &mut H)
    ensures { state.new ≡ fold H.write state.old (texts_input texts) }
{
    if texts != 0 {
        state.write_u32(texts);
    }
}
