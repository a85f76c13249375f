// The guard of a work area: however a call ends, its work bytes are zero afterwards.
ghost use Rattle.std.specs.Prelude.{◌≡◌, length, replicate};

// The caller's work bytes, which are zero once the guard is dropped.
pub(crate) struct Guard<'a> {
    pub(crate) work: &'a mut [u8],
}

impl Drop for Guard<'_> {
    fn drop(self)
        ensures { self.exit.0.now ≡ replicate (length self.entry.work.now) 0 }
    {
        self.work.fill(0);
        let Guard { work: _ } = self;
    }
}
