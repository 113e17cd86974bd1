//! The order in which a line keeps its records.
ghost use Rattle.std.specs.Prelude.{◌≡◌, Bool, true, false};

/// A record type with a total order of its own.
// Not std's `Ord`: the line's promises are said in `le` and these four laws, and of two records that tie `Ord` says only that
// they compare as equal.
pub trait Ranked: Copy {
    // whether the first stands at or before the second
    ghost le: { Self → Self → Bool };

    /// Whether this record is not greater than the other.
    fn at_most(&self, other: &Self) -> bool
        ensures { result ≡ le self.now other.now };

    ghost reflexive: { (x : Self) → le x x ≡ true };

    ghost total: { (x : Self) (y : Self) → le x y ≡ false → le y x ≡ true };

    ghost transitive: { (x : Self) (y : Self) (z : Self) → le x y ≡ true → le y z ≡ true → le x z ≡ true };

    ghost antisymmetric: { (x : Self) (y : Self) → le x y ≡ true → le y x ≡ true → x ≡ y };
}
