// Internal: figures by their places, so that one step reads tables of words and of bytes.
ghost use Rattle.std.specs.Prelude.{◌≡◌, ℕ, ◌<◌, List, length, get_or};

// A list of figures, read in place.
pub trait Figures<T> {
    ghost figures: { Self → List T };

    fn count(&self) -> usize
        ensures { result ≡ length (figures self.now) };

    fn figure(&self, place: usize) -> T
        requires { place < length (figures self.now) }
        ensures { (none : T) → result ≡ get_or (figures self.now) place none };
}

// Words as they lie.
impl<T: Copy> Figures<T> for &[T] {
    ghost figures = { λ s. s.now };

    fn count(&self) -> usize {
        self.len()
    }

    fn figure(&self, place: usize) -> T {
        self[place]
    }
}
