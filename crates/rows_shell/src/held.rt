// A value that is dropped by a call. A function that drops a large value at several ways out is proved sooner where it
// holds the value so: else it has to drop each of the value's parts itself, at each way out.

/// Holds a value.
pub struct Held<T: Drop> {
    pub value: T,
}

impl<T: Drop> Drop for Held<T> {
    fn drop(self) {
        let Held { value: _value } = self;
    }
}
