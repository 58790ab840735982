//! Which types take the fields of a column.

ghost use Rattle.std.specs.Prelude.{◌≡◌, ◌<◌, ◌&&◌, ◌∷◌, [], ◌++◌, ℕ, List, None, MatchOption};
ghost use Rattle.std.specs.Prelude.{false, get_or, length, map, true};
ghost use Rattle.arrow_types.specs.Schema.{IsType};
ghost use Rattle.arrow_types.specs.DataType.{encoding_of};
ghost use Rattle.arrow_types.specs.declared.data_type.DataType.TheVariants.{Number};
ghost use Rattle.number_words.specs.NumberTexts.{types_tried};
ghost use Rattle.csv_columns.specs.FittingColumns.{is_empty, takes, takes_all, type_found};
ghost use Rattle.std.specs.List.{list_any};

use crate::value_in;
use arrow_types::DataType;
use number_words::TYPES_TRIED;

// How many types of numbers are tried.
const KINDS: usize = TYPES_TRIED.len();

/// Which types take all fields of a column so far, and whether one of these is empty. The types of
/// numbers stand in the order in which they are tried.
#[derive(Clone, Copy)]
pub(crate) struct TypeCandidates {
    flag: bool,
    numbers: [bool; KINDS],
    empty: bool,
}

// Whether a type that took all fields so far takes one more, too. A field is read only where it
// did.
fn still_takes(so_far: bool, data_type: DataType, field: &[u8]) -> bool
    ensures { result ≡ so_far && takes data_type field.now }
{
    so_far && (field.is_empty() || value_in(data_type, field).is_some())
}

// The place of the first that is true.
fn first_true(flags: &[bool]) -> Option<usize>
    ensures { MatchOption result
        ((k : ℕ) → k < length flags.now → get_or flags.now k false ≡ false)
        (λ at. (at < length flags.now) × (get_or flags.now at false ≡ true)
        × ((k : ℕ) → k < at → get_or flags.now k false ≡ false)) }
{
    flags.iter().position(|flag| *flag)
}

impl TypeCandidates {
    ghost use Rattle.csv_columns.specs.inside.Tests.{HasSeen};

    /// No field. Each type takes them all.
    pub(crate) fn none() -> TypeCandidates
        ensures { HasSeen result [] }
    {
        TypeCandidates {
            flag: true,
            numbers: [true; KINDS],
            empty: false,
        }
    }

    /// A field more. It is tried as a value of the types that took all others.
    pub(crate) fn with(self, field: &[u8]) -> TypeCandidates
        ensures { (fields : List (List ℕ)) → HasSeen self fields →
            HasSeen result (fields ++ field.now ∷ []) }
    {
        TypeCandidates {
            flag: still_takes(self.flag, DataType::Bool, field),
            numbers: self.numbers_with(field),
            empty: self.empty || field.is_empty(),
        }
    }

    // The types of numbers that take one more field, too.
    fn numbers_with(self, field: &[u8]) -> [bool; KINDS]
        ensures { (fields : List (List ℕ)) →
            self.numbers ≡ map (λ kind. takes_all (Number kind) fields) types_tried →
            result ≡ map (λ kind. takes_all (Number kind) (fields ++ field.now ∷ [])) types_tried }
    {
        let mut numbers = self.numbers;
        for place in 0..KINDS {
            let data_type = DataType::Number(TYPES_TRIED[place]);
            let before = numbers[place];
            let fits = still_takes(before, data_type, field);
            numbers[place] = fits;
        }
        numbers
    }

    /// The first type that takes all fields, and texts where none of the others does.
    pub(crate) fn data_type(self) -> DataType
        ensures found { (fields : List (List ℕ)) → HasSeen self fields →
            result ≡ type_found fields }
        ensures plain { encoding_of result ≡ None }
        ensures typed { IsType result }
    {
        if self.flag {
            return DataType::Bool;
        }
        match first_true(&self.numbers) {
            Some(place) => DataType::Number(TYPES_TRIED[place]),
            None => DataType::Utf8,
        }
    }

    /// Whether one of the fields is empty.
    pub(crate) fn nullable(self) -> bool
        ensures { (fields : List (List ℕ)) → HasSeen self fields →
            result ≡ list_any is_empty fields }
    {
        self.empty
    }
}
