// Values looked at.
ghost use Rattle.std.specs.Prelude.{◌≡◌};
ghost use Rattle.std.specs.List.{list_all};

/// Whether every value is `x`. All are looked at, so that the compiler takes many at a time; with `all`, which stops at another one, it takes one by one.
pub fn all_are<T: Copy + PartialEq>(values: &[T], x: T) -> bool
    ensures { result ≡ list_all (λ y. T.eq y x) values.now }
{
    let mut same = true;
    for i in 0..values.len() {
        same &= values[i] == x;
    }
    same
}
