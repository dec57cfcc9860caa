//! What a timeline is made of.
ghost use Rattle.std.specs.Prelude.{◌≡◌, map};
ghost use Rattle.instants_sources.specs.Grammar.{grammar_of};
ghost use Rattle.instants_timeline.specs.Settings.{setting_of};

use crate::timeline::Timeline;
use calendar::UtcOffset;
use instants_answers::Target;
use instants_sources::Source;

impl<'a> Timeline<'a> {
    /// The sources, in the order in which they are tried.
    pub fn into_sources(self) -> Vec<Source<'a>>
        ensures { map grammar_of result.items ≡ (setting_of self.entry).sources }
    {
        self.sources
    }

    /// The offset in which moments are shown.
    pub fn target(&self) -> Target
        ensures { result ≡ (setting_of self.now).target }
    {
        self.target
    }

    /// The offset that is assumed for lines without one.
    pub fn assumed(&self) -> Option<UtcOffset>
        ensures { result ≡ (setting_of self.now).assumed }
    {
        self.assumed
    }
}
