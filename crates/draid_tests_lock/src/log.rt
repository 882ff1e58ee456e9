ghost use Rattle.std.specs.Prelude.{◌≡◌, ◌∷◌, ◌++◌, [], ⊤, None, if◌then◌else◌};
ghost use Rattle.draid_turn.specs.Lists.{StartsWith};

use draid_holds::Work;
use draid_turn::{Act, Pass, Stand, Turn};
use std::sync::Wait;

/// Numbers, in the order in which they came.
#[derive(Drop)]
pub struct Log {
    pub entries: Vec<u64>,
}

impl Stand for Log {
    ghost step = { λ log past. StartsWith past.left.entries.items log.entries.items };
}

/// Puts a number behind the others, where there is memory for it.
#[derive(Drop)]
pub struct Put {
    pub entry: u64,
    pub is_in: bool,
}

impl Act<Log> for Put {
    ghost needs = { λ _ _. ⊤ };

    ghost relates = { λ put old after new. new.entries.items ≡ (if after.is_in then old.entries.items ++ put.entry ∷ [] else old.entries.items) };

    ghost concerns = { λ _. None };

    fn concerned(&self) -> Option<u64> {
        None
    }

    fn act(&mut self, log: &mut Log) {
        self.is_in = log.entries.push(self.entry).is_ok();
    }
}

/// Puts so many numbers from one on, each in a turn of its own.
#[derive(Drop)]
pub struct Putting<'a, R: Wait> {
    pub rt: &'a R,
    pub from: u64,
    pub count: u64,
}

impl<'a, R: Wait> Work<Log> for Putting<'a, R> {
    ghost needs = { λ _ _ _. ⊤ };

    ghost relates = { λ _ _ _. ⊤ };

    fn work(&mut self, turn: &Turn<Log>, pass: &mut Pass<Log>) {
        for i in 0..self.count {
            let mut put = Put {
                entry: self.from.wrapping_add(i),
                is_in: false,
            };
            turn.call(self.rt, pass, &mut put);
        }
    }
}
