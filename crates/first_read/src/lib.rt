#![tactic(auto)]

// The first read from memory: the promise is specs/Promise.antt, its proof proofs/Theorem.antt.
