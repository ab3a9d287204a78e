ghost use Rattle.std.specs.Prelude.{◌≡◌};
ghost use Rattle.morta_plain.specs.PlainAsker.{plain_asker};

use morta_task::{Ask, Asker, Config, Entry, Interval, Morta};

/// An asker that makes the same request for each interval: one thread, for at most `until` iterations, where that is given.
#[derive(Debug, Drop)]
pub struct PlainAsker {
    pub until: Option<u64>,
}

impl Morta for PlainAsker {
    ghost promise = { plain_asker };
}

impl Asker for PlainAsker {
    ghost stands_only = { λ m log h. tt };

    ghost asks_alone = { λ m log e from ask i alone asked is. tt };

    fn ask(&mut self, _entry: &Entry, _next: i64) -> Ask {
        Ask {
            config: Config::SEQ,
            until: self.until,
        }
    }

    fn told(&mut self, _entry: &Entry, _interval: &Interval) {}
}
