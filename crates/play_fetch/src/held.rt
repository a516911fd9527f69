// A value that is dropped by a call. A function that drops a large value at several ways out is proved
// sooner where it holds the value so: else it has to drop each of the value's parts itself, at each way out.
ghost use Rattle.std.specs.Prelude.{◌≡◌};

// Holds a value.
pub(crate) struct Held<T: Drop> {
    pub(crate) value: T,
}

impl<T: Drop> Drop for Held<T> {
    fn drop(self) {
        let Held { value: _value } = self;
    }
}

impl<T: Drop> Held<T> {
    // The value itself.
    pub(crate) fn into_inner(self) -> T
        ensures { result ≡ self.value }
    {
        let Held { value } = self;
        value
    }
}
