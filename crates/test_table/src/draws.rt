//! Random numbers.

/// Random numbers, the same ones in each run.
#[derive(Drop)]
pub struct Draws {
    pub x: u64,
}

impl Draws {
    fn next(&mut self) -> u64 {
        self.x = self
            .x
            .wrapping_mul(6_364_136_223_846_793_005)
            .wrapping_add(1_442_695_040_888_963_407);
        self.x >> 32
    }

    /// A number below `n`, or 0 if `n` is 0.
    pub fn among(&mut self, n: u64) -> u64 {
        let draw = self.next();
        if n == 0 { 0 } else { draw % n }
    }

    pub fn place(&mut self, len: usize) -> usize {
        self.among(len as u64) as usize
    }

    /// Names for a page.
    pub fn page(&mut self) -> &'static [&'static str] {
        match self.among(5) {
            0 => &["a"],
            1 => &["b", "a"],
            2 => &["a", "c"],
            3 => &["c", "b", "c"],
            _ => &["b"],
        }
    }

    /// Which of that many names exist, for this choice; in one of six cases for another page.
    pub fn found(&self, names: usize, choice: u64) -> &'static [bool] {
        match (names, choice) {
            (_, 2) => &[true, true, true, true],
            (1, 3) => &[false],
            (1, _) => &[true],
            (2, 3) => &[false, true],
            (2, 4) => &[false, false],
            (2, _) => &[true, true],
            (_, 3) => &[true, false, true],
            _ => &[true, true, true],
        }
    }

    pub fn name(&mut self) -> &'static str {
        match self.among(3) {
            0 => "a",
            1 => "b",
            _ => "c",
        }
    }
}
