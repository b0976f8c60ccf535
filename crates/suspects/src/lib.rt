// What a call on one sector of a volume does to the sector's bit in the map of suspects (change request S-4).
#![tactic(auto)]

#[derive(Clone, Copy, Debug, PartialEq, Eq)]
pub enum Mark {
    Clears,
    Sets,
    Keeps,
}
