// No code: one volume for which the premise of the list of cuts (`Witness` of `writes`) is computed, so that such a list is there without a
// premise. Computing takes the larger part of its check, so it stands in a crate of its own, without edits.

#![tactic(auto)]
