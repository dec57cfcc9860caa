//! The nodes of a timeline, and how many items a line takes.
ghost use Rattle.std.specs.Prelude.{◌≡◌, ◌≢◌, ◌≤◌, IfOk, IfErr};
ghost use Rattle.instants_answers.specs.Text.{FitsLine};
ghost use Rattle.instants_timeline.specs.Place.{IsPlace, place_of};
ghost use Rattle.instants_faults.specs.Refusal.{IsShort, long, refusal_said};
ghost use Rattle.instants_timeline.specs.Settings.{setting_of};
ghost use Rattle.instants_timeline.specs.Tried.{nodes_in_all, tried_on};

use crate::timeline::Timeline;
use datetime_types::OffsetDateTime;
use instants_faults::LineFault;

impl Timeline<'_> {
    /// The line's place, as `place` answers it, and how many items are tried for it: those whose reading begins, by each
    /// source up to the first that names a moment, or by all. The number is at most `places`.
    pub fn place_counted(&self, line: &[u8]) -> (Result<OffsetDateTime, LineFault>, u128)
        ensures place { IsPlace result.0 (place_of (setting_of self.now) line.now) }
        ensures fits { IfOk result.0 FitsLine }
        ensures short { IfErr result.0 (λ fault. IsShort (refusal_said fault)) }
        ensures never_long { IfErr result.0 (λ fault. refusal_said fault ≢ long) }
        ensures tried { result.1 ≡
            tried_on (setting_of self.now).assumed (setting_of self.now).sources line.now }
        ensures at_most { result.1 ≤ nodes_in_all (setting_of self.now).sources }
    {
        (self.place(line), self.tried(line))
    }

    // How many items are tried on the line.
    fn tried(&self, line: &[u8]) -> u128
        ensures { result ≡
            tried_on (setting_of self.now).assumed (setting_of self.now).sources line.now }
    {
        let mut tried = 0u128;
        for source in &self.sources {
            tried += source.tried(line, &self.assumed);
            if source.moment(line, &self.assumed).is_some() {
                return tried;
            }
        }
        tried
    }

    /// How many nodes the sources have together: all of what they read by, where a well-known format is one. No
    /// line takes more items.
    pub fn places(&self) -> u128
        ensures places { result ≡ nodes_in_all (setting_of self.now).sources }
    {
        let mut nodes = 0u128;
        for source in &self.sources {
            nodes += source.nodes();
        }
        nodes
    }
}
