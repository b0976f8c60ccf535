// No code: the definition of the write in one call (change request S-6), which its contract cites, is in specs/, with what it means by
// which plaintexts fit, and the theorem about every history of a volume that has such writes.

#![tactic(auto)]
