// What a survey found, as bits: bit i for sector i, a map for each kind.

ghost use Rattle.std.specs.Prelude.{◌≡◌, ◌+◌, ◌*◌, ◌<◌, ◌≤◌, length};
ghost use Rattle.std.proofs.lemmas.List.Edits.{sets};
ghost use Rattle.survey.specs.Inner.{marking, set_below, in_order};

// What the survey keeps of a verdict.
#[derive(Clone, Copy, Debug, PartialEq, Eq)]
pub enum Kind {
    Whole,
    Doubtful,
    Clashing,
    Lost,
}

// The numbers of the sectors of each kind, of up to 65,536. A whole sector is in no map.
#[derive(Drop)]
pub struct Maps {
    pub lost: [u64; 1024],
    pub clashing: [u64; 1024],
    pub doubtful: [u64; 1024],
}

impl Maps {
    // Keeps the number i in the map of its sector's kind.
    pub fn mark(&mut self, i: usize, kind: Kind)
        requires { i < 65536 }
        ensures { self.new ≡ marking kind i self.old }
    {
        match kind {
            Kind::Whole => {}
            Kind::Doubtful => bits::put_bit(&mut self.doubtful, i, true),
            Kind::Clashing => bits::put_bit(&mut self.clashing, i, true),
            Kind::Lost => bits::put_bit(&mut self.lost, i, true),
        }
    }

    // Lists the numbers below n in repair order: the lost, then the clashing, then the doubtful.
    #[tactic(auto, using(crate::proofs::Listing::runs_join))]
    pub fn list(&self, n: usize, list: &mut [u32])
        requires { (n ≤ 65536) × (n ≤ length list.old) × (length (in_order n self.now) ≤ n) }
        ensures { list.new ≡ sets list.old 0 (in_order n self.now) }
    {
        let first = list_kind(&self.lost, n, list, 0);
        let second = list_kind(&self.clashing, n, list, first);
        list_kind(&self.doubtful, n, list, second);
    }
}

// Lists the numbers below n that are set in the map of a kind, from an entry on, and gives the entry behind.
#[tactic(auto, using(crate::proofs::Listing::listing_room, crate::proofs::Listing::listing_all))]
fn list_kind(map: &[u64], n: usize, list: &mut [u32], at: usize) -> usize
    requires { (n ≤ 65536) × (n ≤ 64 * length map.now) × (n ≤ length list.old) × (at + length (set_below n map.now) ≤ n) }
    ensures { (result ≡ at + length (set_below n map.now)) × (list.new ≡ sets list.old at (set_below n map.now)) }
{
    let mut next = at;
    for i in 0..n {
        if bits::test_bit(map, i) {
            // The entry is counted by hand: of `iter_mut().zip(..)` a proof knows the lengths alone. And `as`: std's conversion can fail.
            list[next] = i as u32;
            next += 1;
        }
    }
    next
}
