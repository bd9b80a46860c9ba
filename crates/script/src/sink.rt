// Where printed lines go.
ghost use Rattle.std.specs.Prelude.{ℕ, List};

// A sink means what putting a line makes of it. It takes every line; what it can't pass on it has to remember itself.
pub trait Sink {
    ghost puts: { Self → List ℕ → Self → Type 0 };

    fn put(&mut self, line: &[u8])
        ensures { puts self.old line.now self.new };
}
