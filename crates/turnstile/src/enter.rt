//! The shape and the job.

ghost use Rattle.turnstile.specs.Entering.{Enters, HasAtMost};

use txn::{Job, Shape, Stop, Verdict, Words};

/// One word: how many are inside, at most `limit`.
#[derive(Clone, Copy, Debug, PartialEq, Eq)]
pub struct Room {
    pub limit: u64,
}

impl Shape for Room {
    ghost word_count = { λ _. 1 };

    ghost good = { λ room s. HasAtMost room.limit s };
}

/// Lets one more in, if there is room, and says whether it did.
#[derive(Clone, Copy, Debug, PartialEq, Eq)]
pub struct Enter {
    pub room: Room,
}

impl Job for Enter {
    type Shape = Room;

    type Answer = bool;

    ghost shape = { λ job. job.room };

    ghost means = { λ job s kept let_in t. Enters job.room.limit s kept let_in t };

    fn run<W: Words<Shape = Room>>(&self, w: &mut W) -> Result<Verdict<bool>, Stop> {
        let limit = self.room.limit;
        let inside = w.read(0)?;
        if inside >= limit {
            return Ok(Verdict::Revert(false));
        }
        w.write(0, inside + 1)?;
        Ok(Verdict::Keep(true))
    }
}
