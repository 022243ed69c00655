// Scratch that is zero again when it goes out of use. Assumes nothing.
ghost use Rattle.std.specs.Prelude.{◌≡◌, length, replicate, pos};

pub struct Wiped<'a>(pub &'a mut [i32]);

impl Drop for Wiped<'_> {
    fn drop(self)
        ensures { self.exit.0.now ≡ replicate (length self.entry.0.now) (pos 0) }
    {
        self.0.fill(0);
        let Wiped(_) = self;
    }
}
