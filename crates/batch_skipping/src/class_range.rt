//! The possible truths of comparisons of values of one class. Most batches are judged by these: a
//! value is its number or its text, and no other kind is thought of.

ghost use Rattle.std.specs.Prelude.{◌≡◌, ◌∷◌, [], true, IfSome, is_some};
ghost use Rattle.scan_base.specs.Comparison.{order_of};
ghost use Rattle.scan_base.specs.declared.value.Value.{Value};
ghost use Rattle.scan_base.specs.Value.{value_of};
ghost use Rattle.batch_skipping.specs.PredicateTruths.{can_be_within, can_compare, equal_between};
ghost use Rattle.batch_skipping.specs.PredicateTruths.{is_one_value};
ghost use Rattle.batch_skipping.specs.PredicateTruths.{less_between, of_sides};
ghost use Rattle.batch_skipping.specs.inside.ClassRange.{stats_between};
ghost use Rattle.batch_stats.specs.Sides.{side_at};
ghost use Rattle.batch_stats.specs.Stats.{stand, stats_of};

use crate::possible_truths::PossibleTruths;
use batch_stats::Side;
use scan_base::{Comparison, ValueRef};

// Values of one class that are not null.
pub(crate) trait OneClass<'a>: Copy {
    ghost as_value: { Self → Value };

    // The value as one of this class, where it is.
    fn of_value(value: ValueRef<'a>) -> Option<Self>
        ensures { IfSome result (λ of. as_value of ≡ value_of value.entry) };

    // The value alone.
    fn alone(self) -> ClassRange<Self>
        ensures { stats_between as_value result ≡ stats_of (as_value self ∷ []) };

    // Two have an order.
    fn have_order(&self, other: &Self)
        ensures { is_some (order_of (as_value self.now) (as_value other.now)) ≡ true };

    // Whether a comparison of two is true.
    fn stands(&self, comparison: Comparison, other: &Self) -> bool
        ensures { result ≡ stand comparison (as_value self.now) (as_value other.now) };
}

impl<'a> OneClass<'a> for i128 {
    ghost use Rattle.scan_base.specs.declared.value.Value.TheVariants.{Int};

    ghost as_value = { λ number. Int number };

    fn of_value(value: ValueRef<'a>) -> Option<i128> {
        match value {
            ValueRef::Int(number) => Some(number),
            _ => None,
        }
    }

    fn alone(self) -> ClassRange<i128> {
        ClassRange {
            least: self,
            greatest: self,
            nulls: 0,
        }
    }

    fn have_order(&self, _other: &i128) {}

    fn stands(&self, comparison: Comparison, other: &i128) -> bool {
        match comparison {
            Comparison::Equal => *self == *other,
            Comparison::NotEqual => *self != *other,
            Comparison::Less => *self < *other,
            Comparison::LessOrEqual => *self <= *other,
            Comparison::Greater => *self > *other,
            Comparison::GreaterOrEqual => *self >= *other,
        }
    }
}

impl<'a> OneClass<'a> for &'a str {
    ghost use Rattle.scan_base.specs.declared.value.Value.TheVariants.{Text};

    ghost as_value = { λ text. Text text.now };

    fn of_value(value: ValueRef<'a>) -> Option<&'a str> {
        match value {
            ValueRef::Text(text) => Some(text),
            _ => None,
        }
    }

    fn alone(self) -> ClassRange<&'a str> {
        ClassRange {
            least: self,
            greatest: self,
            nulls: 0,
        }
    }

    fn have_order(&self, _other: &&'a str) {}

    fn stands(&self, comparison: Comparison, other: &&'a str) -> bool {
        comparison.is_satisfied_by((*self).cmp(*other))
    }
}

// What some values of one class are between, and how many values next to them are null.
#[derive(Clone, Copy, Drop)]
pub(crate) struct ClassRange<K> {
    pub(crate) least: K,
    pub(crate) greatest: K,
    pub(crate) nulls: usize,
}

impl<'a, K: OneClass<'a>> ClassRange<K> {
    // Those of a side, where its values are of this class.
    pub(crate) fn of_side(side: &Side<'a>) -> Option<ClassRange<K>>
        ensures { IfSome result (λ range. stats_between K.as_value range ≡ side_at side.now) }
    {
        let ends = side.ends?;
        Some(ClassRange {
            least: K::of_value(ends.least)?,
            greatest: K::of_value(ends.greatest)?,
            nulls: side.nulls,
        })
    }

    // The possible truths of a comparison with a value of the other ones.
    #[tactic(auto, unfolding(crate::specs::PredicateTruths::can_compare))]
    pub(crate) fn can_compare(
        &self,
        comparison: Comparison,
        other: &ClassRange<K>,
    ) -> PossibleTruths
        ensures { result ≡ can_compare comparison (stats_between K.as_value self.now)
            (stats_between K.as_value other.now) }
    {
        match comparison {
            Comparison::Equal => self.can_equal(other),
            Comparison::NotEqual => self.can_equal(other).not(),
            Comparison::Less => self.can_be_less(other),
            Comparison::Greater => other.can_be_less(self),
            Comparison::LessOrEqual => other.can_be_less(self).not(),
            Comparison::GreaterOrEqual => self.can_be_less(other).not(),
        }
    }

    // The possible truths of `>=` with a value of `low`, and `<=` with one of `high`.
    #[tactic(auto, unfolding(crate::specs::PredicateTruths::can_compare))]
    pub(crate) fn can_be_within(&self, low: &ClassRange<K>, high: &ClassRange<K>) -> PossibleTruths
        ensures { result ≡ can_be_within (stats_between K.as_value self.now)
            (stats_between K.as_value low.now) (stats_between K.as_value high.now) }
    {
        self.can_be_less(low)
            .not()
            .and(high.can_be_less(self).not())
    }

    // The possible truths of `=`.
    fn can_equal(&self, other: &ClassRange<K>) -> PossibleTruths
        ensures { result ≡ of_sides equal_between (stats_between K.as_value self.now)
            (stats_between K.as_value other.now) }
    {
        self.least.have_order(&other.least);
        let can_true = self.least.stands(Comparison::LessOrEqual, &other.greatest)
            && other.least.stands(Comparison::LessOrEqual, &self.greatest);
        PossibleTruths {
            can_true,
            can_false: !self.is_one_value(other),
            can_unknown: self.nulls > 0 || other.nulls > 0,
        }
    }

    // Whether all values of both are one value. Mostly the least ones differ, so they are looked at
    // first.
    fn is_one_value(&self, other: &ClassRange<K>) -> bool
        ensures { result
            ≡ is_one_value (K.as_value (self.now).least, K.as_value (self.now).greatest)
            (K.as_value (other.now).least, K.as_value (other.now).greatest) }
    {
        if !self.least.stands(Comparison::Equal, &other.least) {
            return false;
        }
        self.least.stands(Comparison::Equal, &self.greatest)
            && other.least.stands(Comparison::Equal, &other.greatest)
    }

    // The possible truths of `<`.
    fn can_be_less(&self, other: &ClassRange<K>) -> PossibleTruths
        ensures { result ≡ of_sides less_between (stats_between K.as_value self.now)
            (stats_between K.as_value other.now) }
    {
        self.least.have_order(&other.least);
        PossibleTruths {
            can_true: self.least.stands(Comparison::Less, &other.greatest),
            can_false: self
                .greatest
                .stands(Comparison::GreaterOrEqual, &other.least),
            can_unknown: self.nulls > 0 || other.nulls > 0,
        }
    }
}
