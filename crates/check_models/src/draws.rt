// Numbers that are drawn, each by its place, so that none rests on those before it.

/// It spreads numbers that lie close together.
pub(crate) const FACTOR: u64 = 0x9E37_79B9_7F4A_7C15;

/// Another number, far from those of its neighbours.
pub(crate) fn spread(number: u64) -> u64 {
    let number = number.wrapping_mul(FACTOR);
    number ^ (number >> 32)
}

#[derive(Clone, Copy)]
pub(crate) struct Draw {
    key: u64,
}

impl Draw {
    /// The draws of a chain.
    pub(crate) fn of(chain: u64) -> Draw {
        Draw { key: chain }.part(0)
    }

    /// The draws of a part.
    pub(crate) fn part(self, place: u64) -> Draw {
        Draw {
            key: spread(spread(self.key.wrapping_add(place))),
        }
    }

    /// A number below `count`, 0 where that is 0.
    pub(crate) fn below(self, place: u64, count: u64) -> u64 {
        if count == 0 {
            return 0;
        }
        self.part(place).key % count
    }

    /// True once in so many times.
    pub(crate) fn once_in(self, place: u64, count: u64) -> bool {
        self.below(place, count) == 0
    }

    /// One of the texts.
    pub(crate) fn one_of(self, place: u64, texts: &[&'static str]) -> &'static str {
        let chosen = self.below(place, texts.len() as u64);
        texts.get(chosen as usize).copied().unwrap_or("")
    }
}
