//! Tests whether bytes lie in the ranges of a row.

ghost use Rattle.std.specs.Prelude.{◌≡◌, ◌&&◌};
ghost use Rattle.utf8.specs.Ranges.{holds};

/// A byte, and the range in which it is to lie: from low to high, both included.
// Stays: the byte is lent, so that it is read where its test is made and not before.
#[derive(Clone, Copy)]
pub(crate) struct Test<'a> {
    low: u8,
    byte: &'a u8,
    high: u8,
}

/// The test whether b lies from low to high.
pub(crate) fn within<'a>(low: u8, byte: &'a u8, high: u8) -> Test<'a>
    ensures { result ≡ record { low = low; byte = byte.entry; high = high } }
{
    Test { low, byte, high }
}

impl<'a> Test<'a> {
    /// Whether the byte lies there.
    pub(crate) fn holds(self) -> bool
        ensures { result ≡ holds self.entry }
    {
        self.low <= *self.byte && *self.byte <= self.high
    }
}

/// Whether two tests hold; the second is made where the first holds.
pub(crate) fn two(a: Test<'_>, b: Test<'_>) -> bool
    ensures { result ≡ (holds a.entry && holds b.entry) }
{
    a.holds() && b.holds()
}

/// Whether three tests hold; each is made where those before it hold.
pub(crate) fn three(a: Test<'_>, b: Test<'_>, c: Test<'_>) -> bool
    ensures { result ≡ ((holds a.entry && holds b.entry) && holds c.entry) }
{
    a.holds() && b.holds() && c.holds()
}

/// Whether four tests hold; each is made where those before it hold.
pub(crate) fn four(a: Test<'_>, b: Test<'_>, c: Test<'_>, d: Test<'_>) -> bool
    ensures { result ≡ (((holds a.entry && holds b.entry) && holds c.entry) && holds d.entry) }
{
    a.holds() && b.holds() && c.holds() && d.holds()
}
