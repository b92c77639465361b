ghost use Rattle.std.specs.Prelude.{◌≡◌, ℕ, Some, None, Option};

// Whether a run knows its total: a type for each answer, so that only a closed run can be finished.
pub trait Stage: Copy {
    ghost total: { Self → Option ℕ };

    fn total(&self) -> Option<usize>
        ensures { result ≡ total self.now };
}

// The total is not known.
#[derive(Clone, Copy)]
pub struct Unclosed;

impl Stage for Unclosed {
    ghost total = { λ s. None };

    fn total(&self) -> Option<usize> {
        None
    }
}

// The total.
#[derive(Clone, Copy)]
pub struct Total(pub(crate) usize);

impl Stage for Total {
    ghost total = { λ s. Some s.0 };

    fn total(&self) -> Option<usize> {
        Some(self.0)
    }
}
