// The members that are left of a set in one word: an iterator that gives them from the least up.
ghost use Rattle.std.specs.Iterator.{YieldsFirst, item_count};
ghost use Rattle.sets.specs.Rising.{left};

#[derive(Clone, Copy, Drop)]
pub struct Rising(pub(crate) u64);

impl Iterator for Rising {
    type Item = usize;

    ghost next_gives = { YieldsFirst left };

    ghost remaining = { item_count left };

    fn next(&mut self) -> Option<usize> {
        if self.0 == 0 {
            return None;
        }
        let least = self.0.trailing_zeros() as usize;
        self.0 ^= 1 << least;
        Some(least)
    }
}
