// What a call on a volume is lent, and the checks of it.

ghost use Rattle.std.specs.Prelude.{◌≡◌, ◌++◌, length};
ghost use Rattle.mode.specs.Sealing.{key_from};
ghost use Rattle.answers.specs.Answers.{done_option};
ghost use Rattle.answers.specs.Lent.{lengths_fit};
ghost use Rattle.answers.specs.Rules.{first_of, length_rules, shape_rules, volume_rules, sector_rules, survey_rules};

use crate::places::Places;
use crate::{Refusal, checks};

// A volume of `count` sectors of `size` bytes, by its number and under its key. It has no Debug, so that no key is printed.
#[derive(Clone, Copy)]
pub struct Volume<'k> {
    pub key: &'k [u8],
    pub number: u64,
    pub size: usize,
    pub count: usize,
}

// How many bytes the three images of a volume have, or the three places of a sector.
#[derive(Clone, Copy, Debug, PartialEq, Eq)]
pub struct Lengths {
    pub local: usize,
    pub tags: usize,
    pub remote: usize,
}

impl Places<'_> {
    pub fn lengths(&self) -> Lengths
        ensures local { result.local ≡ length self.now.local.now }
        ensures tags { result.tags ≡ length self.now.tag.now }
        ensures remote { result.remote ≡ length self.now.remote.now }
    {
        Lengths {
            local: self.local.len(),
            tags: self.tag.len(),
            remote: self.remote.len(),
        }
    }
}

impl Volume<'_> {
    // Whether images of these lengths are those of the volume's sectors. A product that would wrap is no length.
    #[tactic(auto, unfolding(crate::specs::Rules::is_count, crate::specs::Rules::shape))]
    fn fits(&self, lengths: Lengths) -> bool
        ensures { result ≡ lengths_fit self.now lengths }
    {
        checks::is_count(self.count)
            && self.count.checked_mul(self.size) == Some(lengths.local)
            && lengths.remote == lengths.local
            && lengths.tags == self.count * 16
    }

    // Refusal 8.
    fn check_shape(&self, lengths: Lengths) -> Result<(), Refusal>
        ensures { first_of (shape_rules (lengths_fit self.now lengths)) ≡ done_option result }
    {
        checks::refuse_unless(self.fits(lengths), Refusal::VolumeShape)
    }

    // Refusals 1, 14, 2 and 8, of every call on a volume.
    pub(crate) fn check(&self, lengths: Lengths) -> Result<(), Refusal>
        ensures { first_of (volume_rules (key_from self.now.key.now) self.now.size (lengths_fit self.now lengths)) ≡ done_option result }
    {
        checks::check_key(self.key)?;
        checks::check_size(self.size)?;
        self.check_shape(lengths)
    }

    // And then 9, of a call on sector i.
    pub fn check_sector(&self, i: usize, lengths: Lengths) -> Result<(), Refusal>
        ensures { first_of (sector_rules (key_from self.now.key.now) self.now.size self.now.count (lengths_fit self.now lengths) i) ≡ done_option result }
    {
        self.check(lengths)?;
        checks::check_number(self.count, i)
    }

    // And then 3, of a plaintext or an output of p bytes.
    pub fn check_sector_and_length(
        &self,
        i: usize,
        lengths: Lengths,
        p: usize,
    ) -> Result<(), Refusal>
        ensures { first_of (sector_rules (key_from self.now.key.now) self.now.size self.now.count (lengths_fit self.now lengths) i ++ length_rules p self.now.size) ≡ done_option result }
    {
        self.check_sector(i, lengths)?;
        checks::check_length(p, self.size)
    }

    // Refusals 1, 14, 2, 8 and 11 of a survey with a list of `room` numbers.
    pub fn check_survey(&self, images: Lengths, room: usize) -> Result<(), Refusal>
        ensures { first_of (survey_rules (key_from self.now.key.now) self.now.size self.now.count (lengths_fit self.now images) room) ≡ done_option result }
    {
        self.check(images)?;
        checks::check_list(self.count, room)
    }
}
