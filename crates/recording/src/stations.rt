//! What a recording keeps of each station.
ghost use Rattle.std.specs.Prelude.{◌≡◌, ℕ, ◌+◌, ◌<◌, length, set, Some};
ghost use Rattle.recording.specs.Stations.{entry_at};

/// A station's count of operations, and the number of its last one.
#[derive(Clone, Copy, Default)]
pub struct Entry {
    pub count: usize,
    pub last: Option<usize>,
}

/// The entries of the sixteen stations.
#[derive(Clone, Copy, Default)]
pub struct Stations {
    pub(crate) entries: [Entry; 16],
}

impl Stations {
    // Operation `number` is the station's last one now.
    pub(crate) fn note(&mut self, station: usize, number: usize)
        requires station { station < 16 }
        requires room { (entry_at self.old.entries station).count < 256 }
        ensures sixteen { length self.old.entries ≡ 16 }
        ensures noted { self.new.entries ≡ set self.old.entries station (record { count = (entry_at self.old.entries station).count + 1; last = Some number }) }
    {
        let entry = &mut self.entries[station];
        entry.count += 1;
        entry.last = Some(number);
    }
}
