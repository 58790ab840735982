//! A number that contracts alone see.

ghost use Rattle.std.specs.Prelude.{◌≡◌, ◌+◌};

use std::marker::Model;
use std::snapshot::Snapshot;

/// How often something was done, without a bound. It takes no memory.
#[derive(Drop)]
pub(crate) struct Times {
    before: Option<Snapshot<Times>>,
    more: bool,
}

impl Model for Times {
    ghost use Rattle.version_cell.specs.Counts.{TimesAt, one_more};

    ghost Value = { TimesAt };

    ghost size = { λ times. times.steps };

    ghost view = { λ t. one_more (λ before. before.value) t.before t.more };
}

impl Times {
    // Not once.
    pub(crate) fn none() -> Times
        ensures { result.times ≡ 0 }
    {
        Times {
            before: None,
            more: false,
        }
    }

    // The same.
    pub(crate) fn again(&self) -> Times
        ensures { result.times ≡ self.now.times }
    {
        Times {
            before: Some(Snapshot::of(self)),
            more: false,
        }
    }

    // Once more.
    pub(crate) fn raise(&mut self)
        ensures { self.new.times ≡ self.old.times + 1 }
    {
        *self = Times {
            before: Some(Snapshot::of(self)),
            more: true,
        };
    }
}
