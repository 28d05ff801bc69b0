//! A key is put into a map if it is absent.

ghost use Rattle.txn.specs.Maps.{chain_part};
ghost use Rattle.transfers.specs.Putting.{PutsIfAbsent};

use txn::{ChainMap, Job, MapShape, Put, Stop, Verdict, Words};

/// What became of a key that was to be put into a map.
#[derive(Clone, Copy, Debug, PartialEq, Eq)]
pub enum PutAnswer {
    /// It was absent, and has the value now.
    Put,
    /// It had this value, and keeps it.
    Was(u64),
    /// It was absent, and there is no room for it.
    Full,
}

/// Puts the value at the key if the key is absent.
#[derive(Clone, Copy, Debug, PartialEq, Eq)]
pub struct PutIfAbsent {
    pub shape: MapShape<ChainMap>,
    pub key: u64,
    pub value: u64,
}

impl Job for PutIfAbsent {
    type Shape = MapShape<ChainMap>;

    type Answer = PutAnswer;

    ghost shape = { λ job. job.shape };

    ghost means = { λ job s kept answer t.
        PutsIfAbsent (chain_part job.shape.map) job.key job.value s kept answer t };

    fn run<W: Words<Shape = MapShape<ChainMap>>>(
        &self,
        w: &mut W,
    ) -> Result<Verdict<PutAnswer>, Stop> {
        let map = self.shape.map;
        match map.get(w, self.key)? {
            Some(was) => Ok(Verdict::Keep(PutAnswer::Was(was))),
            None => match map.insert(w, self.key, self.value)? {
                Put::New => Ok(Verdict::Keep(PutAnswer::Put)),
                Put::Old(was) => Ok(Verdict::Revert(PutAnswer::Was(was))),
                Put::Full => Ok(Verdict::Revert(PutAnswer::Full)),
            },
        }
    }
}
