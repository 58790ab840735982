//! Places of slots that were chosen.

ghost use Rattle.std.specs.Prelude.{◌≡◌, ◌≤◌, ◌<◌, ◌+◌, ◌^◌, ◌++◌, ◌∷◌, [], All, OnErr, OnOk};
ghost use Rattle.std.specs.Prelude.{length};
ghost use Rattle.std.specs.List.{range_with_len};
ghost use Rattle.array_select.specs.Selection.{AreRising};
ghost use Rattle.array_select.specs.SetBits.{set_bits};

use std::alloc::{AllocError, Global};
use std::marker::Model;

/// Places of slots, or of rows, in rising order. A contract sees the list of the places.
#[derive(Drop)]
pub struct Selection {
    places: Vec<u32>,
}

impl Model for Selection {
    ghost use Rattle.std.specs.Prelude.{List, ℕ};
    ghost use Rattle.array_select.specs.Selection.{AreRising};

    ghost Value = { List ℕ };

    ghost view = { λ s. s.places.items };

    ghost invariant = { λ s. AreRising s.places.items };
}

impl Selection {
    /// No places. It takes no memory.
    pub fn new(alloc: Global) -> Selection
        ensures { result ≡ [] }
    {
        Selection {
            places: Vec::new(alloc),
        }
    }

    /// Adds a place after all others.
    ///
    /// # Errors
    ///
    /// `AllocError` where memory is refused. The places stay then.
    pub fn push(&mut self, place: u32) -> Result<(), AllocError>
        requires { All (λ earlier. earlier < place) self.old }
        ensures pushed { OnOk result (self.new ≡ self.old ++ place ∷ []) }
        ensures kept { OnErr result (self.new ≡ self.old) }
    {
        Ok(self.places.push(place)?)
    }

    /// Adds the places at which the bits of a word are 1, counted from `base` on, after all others.
    ///
    /// # Errors
    ///
    /// `AllocError` where memory is refused. Some of the places may be added then.
    pub fn push_word(&mut self, base: u32, word: u64) -> Result<(), AllocError>
        requires earlier { All (λ earlier. earlier < base) self.old }
        requires small { base + 64 ≤ 2 ^ 32 }
        ensures { OnOk result (self.new ≡ self.old ++ set_bits 64 base word) }
    {
        if word == u64::MAX {
            return self.push_run(base);
        }
        let mut left = word;
        while left != 0 {
            self.push(base + left.trailing_zeros())?;
            left = left & (left - 1);
        }
        Ok(())
    }

    // Adds 64 places next to each other, after all others.
    fn push_run(&mut self, base: u32) -> Result<(), AllocError>
        requires earlier { All (λ earlier. earlier < base) self.old }
        requires small { base + 64 ≤ 2 ^ 32 }
        ensures { OnOk result (self.new ≡ self.old ++ range_with_len base 64) }
    {
        self.places.extend_from_slice(&run_from(base))
    }

    /// Takes all places away. Its memory is kept for others.
    pub fn clear(&mut self)
        ensures { self.new ≡ [] }
    {
        self.places.clear();
    }

    /// How many places there are.
    pub fn len(&self) -> usize
        ensures { result ≡ length self.now }
    {
        self.places.len()
    }

    /// The places.
    pub fn places(&self) -> &[u32]
        ensures value { result.now ≡ self.now }
        ensures rising { AreRising self.now }
    {
        self.places.as_slice()
    }
}

// 64 places next to each other.
fn run_from(base: u32) -> [u32; 64]
    requires { base + 64 ≤ 2 ^ 32 }
    ensures { result ≡ range_with_len base 64 }
{
    let mut run = [0u32; 64];
    for k in 0..64 {
        run[k] = base + k as u32;
    }
    run
}
