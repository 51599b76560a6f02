// How many steps and pieces of a list were taken, and the first piece that differed.
ghost use Rattle.std.specs.Prelude.{◌≡◌, ◌+◌, ◌≤◌};
ghost use Rattle.cases.specs.Sizes.{most_list_bytes};

// The first piece that differs is counted from 1.
#[derive(Clone, Copy)]
pub struct Tally {
    pub steps: usize,
    pub pieces: usize,
    pub differs: Option<usize>,
}

impl Tally {
    pub const NOTHING: Tally = Tally {
        steps: 0,
        pieces: 0,
        differs: None,
    };

    pub fn count(&mut self, steps: usize, same: bool)
        requires { (self.old.steps + steps ≤ most_list_bytes) × (self.old.pieces ≤ most_list_bytes) }
        ensures { (self.new.steps ≡ self.old.steps + steps) × (self.new.pieces ≡ self.old.pieces + 1) }
    {
        self.steps += steps;
        self.pieces += 1;
        if !same {
            self.differs = self.differs.or(Some(self.pieces));
        }
    }
}
