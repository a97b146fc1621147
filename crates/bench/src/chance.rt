//! Numbers that look like chance, the same in each run.

ghost use Rattle.std.specs.Prelude.{◌≡◌, ◌<◌, ◌%◌, ◌/◌, ◌^◌};
ghost use Rattle.bench.specs.Chances.{stepped};

/// A linear congruential generator.
#[derive(Drop)]
pub(crate) struct Chance {
    state: u64,
}

impl Chance {
    pub(crate) fn new() -> Chance
        ensures { result.state ≡ 1 }
    {
        Chance { state: 1 }
    }

    /// The next number, of 32 bits.
    pub(crate) fn next(&mut self) -> u32
        ensures state { self.new.state ≡ stepped self.old.state }
        ensures high { result ≡ self.new.state / 2 ^ 32 }
    {
        self.state = self
            .state
            .wrapping_mul(6_364_136_223_846_793_005)
            .wrapping_add(1_442_695_040_888_963_407);
        (self.state >> 32) as u32
    }

    /// The next number, below this one.
    pub(crate) fn below(&mut self, end: u32) -> u32
        requires { 0 < end }
        ensures state { self.new.state ≡ stepped self.old.state }
        ensures below { result < end }
    {
        self.next() % end
    }
}
