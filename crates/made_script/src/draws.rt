//! The numbers that are drawn.

ghost use Rattle.std.specs.Prelude.{◌≡◌, ◌<◌};
ghost use Rattle.made_script.specs.Draws.{draw, draws, next_state, state_after};

const MULTIPLIER: u64 = 6_364_136_223_846_793_005;

const INCREMENT: u64 = 1_442_695_040_888_963_407;

// The low bits of a state, which aren't drawn: they repeat soon.
const LOW_BITS: u32 = 33;

/// What is drawn for a line.
#[derive(Clone, Copy, Debug)]
pub struct Draws {
    /// Of 16: what the line asks for.
    pub kind: u64,
    /// Of 32: a folder, from 0.
    pub folder: u64,
    /// Of 64: a name in it.
    pub name: u64,
    /// Of 32: the folder that something is moved to.
    pub other_folder: u64,
    /// Of 64: the name that it gets there.
    pub other_name: u64,
    /// Of 400,000: the length of a file, in bytes.
    pub size: u64,
}

// The state after one more draw.
fn next_state(state: u64) -> u64
    ensures { result ≡ next_state state }
{
    state.wrapping_mul(MULTIPLIER).wrapping_add(INCREMENT)
}

// Draws a number below this one.
fn draw(state: &mut u64, below: u64) -> u64
    requires { 0 < below }
    ensures drawn { result ≡ draw (next_state state.old) below }
    ensures state { state.new ≡ next_state state.old }
{
    *state = next_state(*state);
    (*state >> LOW_BITS) % below
}

/// Draws what a line asks for.
pub fn draw_line(state: &mut u64) -> Draws
    ensures drawn { result ≡ draws state.old }
    ensures state { state.new ≡ state_after state.old 6 }
{
    Draws {
        kind: draw(state, 16),
        folder: draw(state, 32),
        name: draw(state, 64),
        other_folder: draw(state, 32),
        other_name: draw(state, 64),
        size: draw(state, 400_000),
    }
}
