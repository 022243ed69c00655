// Which limits a load may set. Assumes nothing.
ghost use Rattle.std.specs.Prelude.{◌≡◌};
ghost use Rattle.decoder.specs.Limits.{limits_allowed};

use super::Limits;

impl Limits {
    pub fn allowed(&self) -> bool
        ensures { result ≡ limits_allowed self.now }
    {
        (2..=128).contains(&self.capacity)
            && (1..=64).contains(&self.failures)
            && (1..=16_777_216).contains(&self.steps)
    }
}
