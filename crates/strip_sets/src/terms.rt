// Values for each of a few classes of scenes.
ghost use Rattle.std.specs.Prelude.{◌≡◌, ℕ};

/// One value for each of at most two classes. Values beyond the number of classes are not read.
#[derive(Debug, Clone, Copy)]
pub struct Classes<R> {
    pub first: R,
    pub second: R,
}

impl<R: Copy> Classes<R> {
    /// Makes the same value for each class.
    #[inline(always)]
    pub fn same(each: R) -> Self
        ensures { result ≡ record { first = each; second = each } }
    {
        Classes {
            first: each,
            second: each,
        }
    }
}

/// A number of classes.
pub trait Count {
    ghost COUNT: { ℕ };

    /// The number of classes.
    const COUNT: usize;
}

/// No class.
pub struct NoClass;

impl Count for NoClass {
    ghost COUNT = { 0 };

    const COUNT: usize = 0;
}

/// One class.
pub struct One;

impl Count for One {
    ghost COUNT = { 1 };

    const COUNT: usize = 1;
}

/// Two classes.
pub struct Two;

impl Count for Two {
    ghost COUNT = { 2 };

    const COUNT: usize = 2;
}
