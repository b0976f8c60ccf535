// The checks of calls with a map of suspects.

ghost use Rattle.std.specs.Prelude.{◌≡◌};
ghost use Rattle.mode.specs.Sealing.{key_from};
ghost use Rattle.answers.specs.Answers.{done_option};
ghost use Rattle.answers.specs.Lent.{lengths_fit};
ghost use Rattle.answers.specs.Rules.{first_of, map_rules, count_rules, count_and_map_rules, sector_and_map_rules, survey_and_map_rules};

use crate::volume::{Lengths, Volume};
use crate::{Refusal, checks};

// Refusal 8, of a count alone.
fn check_count(n: usize) -> Result<(), Refusal>
    ensures { first_of (count_rules n) ≡ done_option result }
{
    checks::refuse_unless(checks::is_count(n), Refusal::VolumeShape)
}

// Refusal 13: a map of `words` words for n sectors.
#[tactic(auto, unfolding(crate::specs::Rules::map_words))]
pub fn check_words(n: usize, words: usize) -> Result<(), Refusal>
    ensures { first_of (map_rules n words) ≡ done_option result }
{
    checks::refuse_unless(words == n.div_ceil(64), Refusal::MapLength)
}

// Refusals 8 and 13, of a call on a map alone.
pub fn check_count_and_map(n: usize, words: usize) -> Result<(), Refusal>
    ensures { first_of (count_and_map_rules n words) ≡ done_option result }
{
    check_count(n)?;
    check_words(n, words)
}

impl Volume<'_> {
    // Refusals 1, 14, 2, 8, 13 and 9 of a call on sector i with a map of `words` words.
    pub fn check_sector_and_map(
        &self,
        i: usize,
        lengths: Lengths,
        words: usize,
    ) -> Result<(), Refusal>
        ensures { first_of (sector_and_map_rules (key_from self.now.key.now) self.now.size self.now.count (lengths_fit self.now lengths) words i) ≡ done_option result }
    {
        self.check(lengths)?;
        check_words(self.count, words)?;
        checks::check_number(self.count, i)
    }

    // Refusals 1, 14, 2, 8, 13 and 11 of a survey with a map of `words` words and a list of `room` numbers.
    pub fn check_survey_and_map(
        &self,
        images: Lengths,
        words: usize,
        room: usize,
    ) -> Result<(), Refusal>
        ensures { first_of (survey_and_map_rules (key_from self.now.key.now) self.now.size self.now.count (lengths_fit self.now images) words room) ≡ done_option result }
    {
        self.check(images)?;
        check_words(self.count, words)?;
        checks::check_list(self.count, room)
    }
}
