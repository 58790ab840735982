//! The later parts of a dictionary, in runs that dictionaries share.

ghost use Rattle.std.specs.Prelude.{◌≡◌, ◌≤◌, ◌<◌, ◌+◌, ◌++◌, [], false, Some, length, map};
ghost use Rattle.std.specs.Prelude.{slice_get, slice_index, option_map, IfOk, OnOk};
ghost use Rattle.std.specs.Arc.{arc_value};
ghost use Rattle.std.specs.List.{flat_map, list_any};
ghost use Rattle.scan_base.specs.Value.{value_of, is_null};
ghost use Rattle.arrays.specs.Texts.{texts_values};
ghost use Rattle.scan_base.specs.Limits.{most_values};
ghost use Rattle.arrays.specs.inside.Runs.{runs_values};

use crate::cells::Cells;
use crate::texts::Texts;
use scan_base::ValueRef;
use std::alloc::{AllocError, Global};
use std::marker::Model;
use std::sync::Arc;

// Parts one after another, and how many values stand in front of each. A contract sees the list of
// their values.
struct Run {
    parts: Vec<Arc<Texts>>,
    starts: Vec<usize>,
    len: usize,
    nulls: bool,
}

// Written out, so that dropping it is one call (docs/DECISIONS.md).
impl Drop for Run {
    fn drop(self) {
        let Run {
            parts: _,
            starts: _,
            len: _,
            nulls: _,
        } = self;
    }
}

impl Model for Run {
    ghost use Rattle.std.specs.Prelude.{List, map};
    ghost use Rattle.std.specs.Arc.{arc_value};
    ghost use Rattle.scan_base.specs.declared.value.Value.{Value as Cell};
    ghost use Rattle.arrays.specs.inside.Runs.{parts_values, IsRun};

    ghost Value = { List Cell };

    ghost view = { λ run. parts_values (map arc_value run.parts.items) };

    ghost invariant = { λ run. IsRun (map arc_value run.parts.items) run.starts.items run.len
        run.nulls };
}

impl Run {
    // No parts, and room for so many.
    fn with_capacity(alloc: Global, parts: usize) -> Result<Run, AllocError>
        ensures { IfOk result (λ run. run ≡ []) }
    {
        Ok(Run {
            parts: Vec::with_capacity(alloc, parts)?,
            starts: Vec::with_capacity(alloc, parts)?,
            len: 0,
            nulls: false,
        })
    }

    fn len(&self) -> usize
        ensures { result ≡ length self.now }
    {
        self.len
    }

    // The value of a number, counted from 0.
    fn value_at(&self, index: usize) -> ValueRef<'_>
        requires { index < length self.now }
        ensures { slice_get self.now index ≡ Some (value_of result) }
    {
        let part = part_of(self.starts.as_slice(), index);
        self.parts[part].value_at(index - self.starts[part])
    }

    // Whether a value may be null: where the answer is no, none is.
    fn may_have_nulls(&self) -> bool
        ensures { result ≡ false → list_any is_null self.now ≡ false }
    {
        self.nulls
    }

    // The run with one part more at its end.
    fn with(self, part: Arc<Texts>) -> Result<Run, AllocError>
        requires { length self + (arc_value part).len ≤ most_values }
        ensures { IfOk result (λ run. run ≡ self ++ texts_values (arc_value part)) }
    {
        let Run {
            mut parts,
            mut starts,
            len,
            nulls,
        } = self;
        let all = len + part.len();
        let nulls = nulls || part.may_have_nulls();
        starts.push(len)?;
        parts.push(part)?;
        Ok(Run {
            parts,
            starts,
            len: all,
            nulls,
        })
    }

    // Puts the parts after others.
    fn append_parts<'a>(&'a self, parts: &mut Vec<&'a Texts>) -> Result<(), AllocError>
        ensures { OnOk result (flat_map (λ part. texts_values part.now) parts.new.items
            ≡ flat_map (λ part. texts_values part.now) parts.old.items ++ self.now) }
    {
        for part in &self.parts {
            let texts: &'a Texts = part;
            parts.push(texts)?;
        }
        Ok(())
    }

    // The run with the parts of another at its end.
    fn followed_by(self, other: &Run) -> Result<Run, AllocError>
        requires { length self + length other.now ≤ most_values }
        ensures { IfOk result (λ run. run ≡ self ++ other.now) }
    {
        let mut all = self;
        for part in &other.parts {
            all = all.with(Arc::try_clone(part)?)?;
        }
        Ok(all)
    }
}

// The last part that starts at an index or before it: the one that holds it, by halving.
fn part_of(starts: &[usize], index: usize) -> usize
    requires some { 0 < length starts.now }
    requires first { slice_index starts.now 0 ≤ index }
    ensures within { result < length starts.now }
    ensures starts { slice_index starts.now result ≤ index }
    ensures ends { result + 1 < length starts.now → index < slice_index starts.now (result + 1) }
{
    let mut low = 0;
    let mut high = starts.len();
    while high - low > 1 {
        let middle = low + (high - low) / 2;
        if starts[middle] <= index {
            low = middle;
        } else {
            high = middle;
        }
    }
    low
}

// Runs one after another. Each has at least twice the parts of the next, so they are few, and a
// part that comes is put into a new run as often as their number doubles. A contract sees the list
// of their values.
#[derive(Drop)]
pub(crate) struct Runs {
    runs: Vec<Arc<Run>>,
}

impl Model for Runs {
    ghost use Rattle.std.specs.Prelude.{List, map};
    ghost use Rattle.std.specs.Arc.{arc_value};
    ghost use Rattle.scan_base.specs.declared.value.Value.{Value as Cell};
    ghost use Rattle.arrays.specs.inside.Runs.{runs_values};

    ghost Value = { List Cell };

    ghost view = { λ all. runs_values (map arc_value all.runs.items) };
}

impl Runs {
    // No parts. It takes no memory.
    pub(crate) fn new(alloc: Global) -> Runs
        ensures { result ≡ [] }
    {
        Runs {
            runs: Vec::new(alloc),
        }
    }

    // The value of a number, counted from 0, where there is one.
    pub(crate) fn get(&self, index: usize) -> Option<ValueRef<'_>>
        ensures { option_map value_of result ≡ slice_get self.now index }
    {
        let mut left = index;
        for run in &self.runs {
            if left < run.len() {
                return Some(run.value_at(left));
            }
            left -= run.len();
        }
        None
    }

    // Whether a value may be null: where the answer is no, none is.
    pub(crate) fn may_have_nulls(&self) -> bool
        ensures { result ≡ false → list_any is_null self.now ≡ false }
    {
        for run in &self.runs {
            if run.may_have_nulls() {
                return true;
            }
        }
        false
    }

    // Puts the parts of all runs after others.
    pub(crate) fn append_parts<'a>(&'a self, parts: &mut Vec<&'a Texts>) -> Result<(), AllocError>
        ensures { OnOk result (flat_map (λ part. texts_values part.now) parts.new.items
            ≡ flat_map (λ part. texts_values part.now) parts.old.items ++ self.now) }
    {
        for run in &self.runs {
            run.append_parts(parts)?;
        }
        Ok(())
    }

    // The same runs once more.
    fn share(&self, alloc: Global) -> Result<Runs, AllocError>
        ensures { IfOk result (λ all. all ≡ self.now) }
    {
        Ok(Runs {
            runs: shared(alloc, self.runs.as_slice(), self.runs.len())?,
        })
    }

    // The same runs with one part more after them: the shortest become one run with it. A part of
    // no value changes nothing.
    pub(crate) fn with(&self, alloc: Global, part: Texts) -> Result<Runs, AllocError>
        requires { length self.now + part.len ≤ most_values }
        ensures { IfOk result (λ all. all ≡ self.now ++ texts_values part) }
    {
        if part.len() == 0 {
            return self.share(alloc);
        }
        let runs = self.runs.as_slice();
        let (kept, parts) = kept(runs);
        let last = joined(alloc, &runs[kept..], parts)?.with(Arc::new(alloc, part)?)?;
        let mut all = shared(alloc, &runs[..kept], kept + 1)?;
        all.push(Arc::new(alloc, last)?)?;
        Ok(Runs { runs: all })
    }
}

// How many runs stay as they are when one part more comes, and of how many parts the run after them
// is.
fn kept(runs: &[Arc<Run>]) -> (usize, usize)
    ensures { result.0 ≤ length runs.now }
{
    let mut kept = runs.len();
    let mut parts = 1;
    while kept > 0 && runs[kept - 1].parts.len() <= parts {
        kept -= 1;
        parts = runs[kept].parts.len().saturating_add(parts);
    }
    (kept, parts)
}

// The parts of runs in one, with room for so many.
fn joined(alloc: Global, runs: &[Arc<Run>], parts: usize) -> Result<Run, AllocError>
    requires { length (runs_values (map arc_value runs.now)) ≤ most_values }
    ensures { IfOk result (λ run. run ≡ runs_values (map arc_value runs.now)) }
{
    let mut all = Run::with_capacity(alloc, parts)?;
    for run in runs {
        all = all.followed_by(run)?;
    }
    Ok(all)
}

// The same handles once more, in a list with room for so many.
fn shared(alloc: Global, runs: &[Arc<Run>], room: usize) -> Result<Vec<Arc<Run>>, AllocError>
    ensures { IfOk result (λ all. map arc_value all.items ≡ map arc_value runs.now) }
{
    let mut all = Vec::with_capacity(alloc, room)?;
    for run in runs {
        all.push(Arc::try_clone(run)?)?;
    }
    Ok(all)
}
