//! How many bytes a number has.

ghost use Rattle.std.specs.Prelude.{◌≡◌, ◌≤◌};
ghost use Rattle.flatbuf.specs.Width.{bytes_in};

/// How many bytes a scalar has.
#[derive(Clone, Copy, Debug, PartialEq, Eq)]
pub enum Width {
    One,
    Two,
    Four,
    Eight,
}

impl Width {
    /// The number of bytes: 1, 2, 4 or 8.
    pub fn bytes(self) -> usize
        ensures value { result ≡ bytes_in self }
        ensures low { 1 ≤ result }
        ensures high { result ≤ 8 }
    {
        match self {
            Width::One => 1,
            Width::Two => 2,
            Width::Four => 4,
            Width::Eight => 8,
        }
    }
}
