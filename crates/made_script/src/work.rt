//! A made script, line by line.

ghost use Rattle.std.specs.Prelude.{◌+◌, ◌<◌, ◌^◌};

use crate::lines::make;
use fsrm_base::NoMemory;
use std::alloc::Global;

/// The lines of a made script. Each is made as it is asked for.
#[derive(Drop)]
pub struct Work {
    state: u64,
    number: u32,
    left: u32,
    line: Vec<u8>,
    ghost few: { number + left < 2 ^ 32 },
}

impl Work {
    ghost use Rattle.std.specs.Prelude.{◌≡◌, ◌∷◌, [], IfOk, true, false};
    ghost use Rattle.made_script.specs.Lines.{made_lines};
    ghost use Rattle.made_script.specs.Rest.{lines_left};

    /// The script of a seed, with so many lines.
    pub fn new(alloc: Global, seed: u64, count: u32) -> Work
        ensures first { result.number ≡ 0 }
        ensures lines { lines_left result ≡ made_lines seed count }
    {
        Work {
            state: seed,
            number: 0,
            left: count,
            line: Vec::new(alloc),
        }
    }

    /// Makes the next line, if there is one. Otherwise nothing changes.
    pub fn advance(&mut self) -> Result<bool, NoMemory>
        ensures made { IfOk result (λ more. more ≡ true → lines_left self.old ≡ self.new.line.items ∷ lines_left self.new) }
        ensures number { IfOk result (λ more. more ≡ true → self.new.number ≡ self.old.number + 1) }
        ensures fewer { IfOk result (λ more. more ≡ true → self.new.left < self.old.left) }
        ensures ended { IfOk result (λ more. more ≡ false → lines_left self.old ≡ []) }
        ensures kept { IfOk result (λ more. more ≡ false → self.new ≡ self.old) }
    {
        if self.left == 0 {
            return Ok(false);
        }
        let number = self.number + 1;
        self.number = number;
        self.left -= 1;
        let mut state = self.state;
        make(&mut self.line, &mut state, number)?;
        self.state = state;
        Ok(true)
    }

    /// The line that was made last, without its LF.
    pub fn line(&self) -> &[u8]
        ensures { result.now ≡ self.now.line.items }
    {
        self.line.as_slice()
    }

    /// Its number, from 1.
    pub fn number(&self) -> u64
        ensures { result ≡ self.now.number }
    {
        u64::from(self.number)
    }
}
