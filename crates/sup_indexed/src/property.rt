//! Properties of values.

ghost use Rattle.std.specs.Prelude.{◌≡◌, Bool};

/// What a value has or lacks.
pub trait Property<V> {
    // Whether a value has it.
    ghost is_held: { Self → V → Bool };

    /// Whether the value has it.
    fn holds(&self, value: &V) -> bool
        ensures { result ≡ is_held self.now value.now };
}
