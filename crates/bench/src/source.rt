// Bytes that look random and are the same in every run.

#[derive(Drop)]
pub struct Source {
    state: u32,
}

impl Source {
    pub fn new() -> Source {
        Source { state: 1 }
    }

    fn next(&mut self) -> u8 {
        self.state = self
            .state
            .wrapping_mul(1_664_525)
            .wrapping_add(1_013_904_223);
        (self.state >> 24) as u8
    }

    pub fn fill(&mut self, place: &mut [u8]) {
        for byte in place.iter_mut() {
            *byte = self.next();
        }
    }
}
