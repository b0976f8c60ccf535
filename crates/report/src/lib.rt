// What a survey reports (document 01, change request S-1).
#![tactic(auto)]

// What a survey gives: how many sectors have each verdict, and the whole ones in thousandths.
#[derive(Clone, Copy, Debug, PartialEq, Eq)]
pub struct Counts {
    pub whole: usize,
    pub doubtful: usize,
    pub clashing: usize,
    pub lost: usize,
    pub health: usize,
}
