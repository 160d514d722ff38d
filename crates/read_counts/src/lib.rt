#![tactic(auto)]

// The read counters beside the replies: the claim is specs/Claim.antt, its proof proofs/Theorem.antt.
