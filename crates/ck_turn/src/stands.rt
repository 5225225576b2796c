//! What a value under the lock stands for.
ghost use Rattle.std.specs.Prelude.{◌≡◌, List, length};

/// A value that stands for a list of entries, which grows at its end alone while the value is under the lock.
/// Its origin is what stays the same meanwhile.
pub trait Stands {
    type Entry;

    type Origin;

    ghost entries: { Self → List Self.Entry };

    ghost origin: { Self → Self.Origin };

    /// How many entries there are.
    fn length(&self) -> u32
        ensures { result ≡ length (entries self.now) };
}
