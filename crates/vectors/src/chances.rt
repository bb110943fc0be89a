//! Numbers that come by chance, and are the same in every run.

ghost use Rattle.std.specs.Prelude.{◌<◌};

use rand_core::Rng;
use rand_pcg::Pcg32;

/// A generator in its first state.
pub fn chances() -> Pcg32 {
    Pcg32::new(42, 54)
}

/// A number below a bound.
pub fn below(chances: &mut Pcg32, bound: u32) -> u32
    requires { 0 < bound }
    ensures { result < bound }
{
    chances.next_u32() % bound
}
